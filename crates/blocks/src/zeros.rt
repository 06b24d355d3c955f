// Zeros among bytes: the next one, and how many.
ghost use Rattle.std.specs.Prelude.{◌≡◌, true, ◌+◌, ◌≤◌, length};
ghost use Rattle.format.specs.Zeros.{zeros};
ghost use Rattle.blocks.specs.Zeros.{NoZero, ZeroAmong, ZeroFrom};

use super::scan::past_blocks;

// Is none of these bytes zero? The answers are joined, and none is an exit, so that they are one vector test.
pub fn clear(block: &[u8]) -> bool
    ensures { result ≡ true → NoZero block.now 0 (length block.now) }
{
    block.iter().fold(true, |none, b| none & (*b != 0))
}

// The place of the first zero from a place on, before an end, or the end: byte by byte.
fn zero_before(s: &[u8], from: usize, end: usize) -> usize
    requires { (from ≤ end) × (end ≤ length s.now) }
    ensures { ZeroAmong s.now from end result }
{
    match s[from..end].iter().position(|b| *b == 0) {
        Some(n) => from + n,
        None => end,
    }
}

// The place of the first zero from a place on, or the length. Wide blocks first, then narrow ones, then bytes.
fn find_zero(s: &[u8], from: usize) -> usize
    requires { from ≤ length s.now }
    ensures { ZeroFrom s.now from result }
{
    let n = s.len();
    let wide = past_blocks(from, n, 64, |i| clear(&s[i..i + 64]));
    let narrow = past_blocks(wide, n, 8, |i| clear(&s[i..i + 8]));
    zero_before(s, narrow, n)
}

// The zeros of at most 240 bytes, counted in a byte: as many lanes as bytes.
fn few_zeros(s: &[u8]) -> u8
    requires { length s.now ≤ 240 }
    ensures { result ≡ zeros s.now }
{
    let mut n: u8 = 0;
    for b in s {
        n += u8::from(*b == 0);
    }
    n
}

// How many zeros there are.
pub fn count_zeros(s: &[u8]) -> usize
    ensures { result ≡ zeros s.now }
{
    let mut n: usize = 0;
    let mut rest = s;
    while let Some((part, more)) = rest.split_first_chunk::<240>() {
        n += usize::from(few_zeros(part));
        rest = more;
    }
    n + usize::from(few_zeros(rest))
}

// The place of the first zero from a place on, or the end. Eight bytes go one by one first: most runs of a key are short.
pub fn zero_from(s: &[u8], from: usize) -> usize
    requires { from ≤ length s.now }
    ensures { ZeroFrom s.now from result }
{
    if s.len() - from < 8 {
        return find_zero(s, from);
    }
    let near = zero_before(s, from, from + 8);
    if near < from + 8 {
        return near;
    }
    find_zero(s, near)
}
