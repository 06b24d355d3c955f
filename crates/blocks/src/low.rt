// Low bytes: whether a block of them is ASCII, and the place behind such blocks.
ghost use Rattle.std.specs.Prelude.{◌≡◌, true, ◌+◌, ◌≤◌, ◌<◌, length};
ghost use Rattle.blocks.specs.Ascii.{Low};

use super::scan::past_blocks;

// Are these bytes all ASCII? They are joined by or, and their sign bits tested once.
fn ascii(block: &[u8]) -> bool
    ensures { result ≡ true → Low block.now 0 (length block.now) }
{
    block.iter().fold(0, |all, b| all | *b) < 0x80
}

// The place behind the blocks of k bytes from a place on that are ASCII.
pub fn low_blocks(s: &[u8], from: usize, k: usize) -> usize
    requires { (from ≤ length s.now) × (0 < k) }
    ensures { (from ≤ result) × (result ≤ length s.now) × Low s.now from result }
{
    past_blocks(from, s.len(), k, |i| ascii(&s[i..i + k]))
}

// The same where fewer than four bytes are left: a block of four that ends with them overlaps those that were tested.
fn low_rest(s: &[u8], from: usize, at: usize) -> usize
    requires { (from ≤ at) × (at ≤ length s.now) × Low s.now from at }
    ensures { (from ≤ result) × (result ≤ length s.now) × Low s.now from result }
{
    let n = s.len();
    if n - from < 4 {
        return low_blocks(s, from, 1);
    }
    if 4 < n - at {
        return at;
    }
    if ascii(&s[n - 4..]) {
        return n;
    }
    at
}

// A place behind ASCII from a place on: the end where all is ASCII. Wide blocks first, so that long text is fast, then narrow ones, so that short text is.
pub fn past_ascii(s: &[u8], from: usize) -> usize
    requires { from ≤ length s.now }
    ensures { (from ≤ result) × (result ≤ length s.now) × Low s.now from result }
{
    let wide = low_blocks(s, from, 128);
    let half = low_blocks(s, wide, 32);
    let word = low_blocks(s, half, 8);
    let at = low_blocks(s, word, 4);
    low_rest(s, from, at)
}
