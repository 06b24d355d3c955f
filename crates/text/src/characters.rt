// The character at a place.
ghost use Rattle.std.specs.Prelude.{◌≡◌, drop};
ghost use Rattle.format.specs.Utf8.{first_char, width_of};
ghost use Rattle.text.specs.Characters.{char_of};

use super::sequences::{code_of_2, code_of_3, code_of_4, four, three, two};

// A character: its width in bytes, 1 to 4, and its code point.
#[derive(Clone, Copy)]
pub struct Character {
    pub width: usize,
    pub code: u32,
}

// The character at `at`.
pub fn char_at(s: &[u8], at: usize) -> Option<Character>
    ensures { char_of result ≡ first_char (drop at s.now) }
{
    let a = *s.get(at)?;
    if a < 0x80 {
        let code = u32::from(a);
        return Some(Character { width: 1, code });
    }
    let b = *s.get(at + 1)?;
    if two(a, b) {
        let code = code_of_2(a, b);
        return Some(Character { width: 2, code });
    }
    let c = *s.get(at + 2)?;
    if three(a, b, c) {
        let code = code_of_3(a, b, c);
        return Some(Character { width: 3, code });
    }
    let d = *s.get(at + 3)?;
    if four(a, b, c, d) {
        let code = code_of_4(a, b, c, d);
        return Some(Character { width: 4, code });
    }
    None
}

// The width of the character at `at`, 1 to 4; 0 if there is none.
pub fn char_width(s: &[u8], at: usize) -> usize
    ensures { result ≡ width_of (first_char (drop at s.now)) }
{
    match char_at(s, at) {
        Some(c) => c.width,
        None => 0,
    }
}
