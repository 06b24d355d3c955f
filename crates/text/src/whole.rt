// Whole byte strings: whether they are text. ASCII and characters of three bytes go by blocks, and a block with more in it by characters.
ghost use Rattle.std.specs.Prelude.{◌≡◌, ◌≤◌, ◌<◌, length};
ghost use Rattle.format.specs.Utf8.{utf8};
ghost use Rattle.text.specs.Walk.{Walked};

use super::characters::char_at;
use super::threes::past_threes;

// The end of the block of 32 that begins at a place, or of the bytes.
fn block_end(n: usize, at: usize) -> usize
    requires { at ≤ n }
    ensures { (result ≤ n) × (at ≤ result) × (at < n → at < result) }
{
    if n - at < 32 { n } else { at + 32 }
}

// The place behind the characters that begin before `stop`, or the place of the first byte that begins none.
fn walk(s: &[u8], from: usize, stop: usize) -> usize
    requires { (from ≤ stop) × (stop ≤ length s.now) }
    ensures { Walked s.now from stop result }
{
    let mut at: usize = from;
    while at < stop {
        let Some(c) = char_at(s, at) else {
            return at;
        };
        at += c.width;
    }
    at
}

// Are the bytes text?
pub fn valid(s: &[u8]) -> bool
    ensures { result ≡ utf8 s.now }
{
    let mut at: usize = blocks::past_ascii(s, 0);
    while at < s.len() {
        let low = blocks::low_blocks(s, at, 32);
        let from = past_threes(s, low);
        let stop = block_end(s.len(), from);
        let next = walk(s, from, stop);
        if next < stop {
            return false;
        }
        at = next;
    }
    true
}
