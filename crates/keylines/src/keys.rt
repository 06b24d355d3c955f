// A key line: pairs of lowercase hexadecimal digits.
ghost use Rattle.std.specs.Prelude.{◌*◌, ◌≤◌, length};
ghost use Rattle.keylines.specs.Answers.{KeyRead};

use crate::digits::hex;

// The bytes of pairs of digits, put at the front of a buffer: how many.
pub fn pairs(text: &[u8], buf: &mut [u8]) -> Option<usize>
    requires { length text.now ≤ 2 * length buf.old }
    ensures { KeyRead text.now buf.new result }
{
    let mut n = 0;
    for pair in text.chunks(2) {
        let &[high, low] = pair else {
            return None;
        };
        buf[n] = hex(high)? * 16 + hex(low)?;
        n += 1;
    }
    Some(n)
}
