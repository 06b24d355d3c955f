// Byte strings compared: at the first byte that differs, else the shorter comes first.
ghost use Rattle.std.specs.Prelude.{◌≡◌, true, ◌+◌, ◌≤◌, ◌<◌, length};
ghost use Rattle.format.specs.Order.{cmp_bytes};
ghost use Rattle.blocks.specs.Compare.{Same, DifferAt, order_of};

use super::scan::past_blocks;
use std::cmp::Ordering;

// Are the k bytes from i on the same in both? The answers are joined, and none is an exit, so that they are one vector test.
fn same(a: &[u8], b: &[u8], i: usize, k: usize) -> bool
    requires { (i + k ≤ length a.now) × (i + k ≤ length b.now) }
    ensures { result ≡ true → Same a.now b.now i (i + k) }
{
    a[i..i + k]
        .iter()
        .zip(&b[i..i + k])
        .fold(true, |all, (x, y)| all & (*x == *y))
}

// The first place where the two differ, or the shorter one's end.
pub fn differ_at(a: &[u8], b: &[u8]) -> usize
    ensures { DifferAt a.now b.now result }
{
    let end = a.len().min(b.len());
    let wide = past_blocks(0, end, 64, |i| same(a, b, i, 64));
    let narrow = past_blocks(wide, end, 16, |i| same(a, b, i, 16));
    let word = past_blocks(narrow, end, 4, |i| same(a, b, i, 4));
    past_blocks(word, end, 1, |i| a[i] == b[i])
}

// How a compares to b: by the byte at that place, or by who ends there.
pub fn compare(a: &[u8], b: &[u8]) -> Ordering
    ensures { order_of result ≡ cmp_bytes a.now b.now }
{
    let i = differ_at(a, b);
    match (a.get(i), b.get(i)) {
        (Some(x), Some(y)) => x.cmp(y),
        (Some(_), None) => Ordering::Greater,
        (None, Some(_)) => Ordering::Less,
        (None, None) => Ordering::Equal,
    }
}
