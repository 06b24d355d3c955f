// Bytes put elsewhere: into another buffer, or to another place of the same one.
ghost use Rattle.std.specs.Prelude.{◌≡◌, ◌+◌, ◌-◌, ◌≤◌, ◌<◌, length, take, drop};
ghost use Rattle.std.proofs.Math.Seq.{slice};
ghost use Rattle.format.specs.Fields.{put};
ghost use Rattle.blocks.specs.Zeros.{NoZero};

use super::zeros::clear;

// Copies src[i..e] to dst from o on. Byte by byte: `copy_from_slice` calls memmove, and with it encoding 64 KB of zeros, whose runs are short, takes twice as long.
pub fn copy_to(dst: &mut [u8], o: usize, src: &[u8], i: usize, e: usize)
    requires { (i ≤ e) × (e ≤ length src.now) × (o + (e - i) ≤ length dst.old) }
    ensures { dst.new ≡ put dst.old o (slice i e src.now) }
{
    let part = &src[i..e];
    for (k, b) in part.iter().enumerate() {
        dst[o + k] = *b;
    }
}

// The same by the library, for parts that are long or of a literal length.
fn copy_long(dst: &mut [u8], o: usize, src: &[u8], i: usize, e: usize)
    requires { (i ≤ e) × (e ≤ length src.now) × (o + (e - i) ≤ length dst.old) }
    ensures { dst.new ≡ put dst.old o (slice i e src.now) }
{
    dst[o..o + (e - i)].copy_from_slice(&src[i..e]);
}

// As many bytes as are copied at once. The C library's memmove takes a slower way for 4,096 and more on some processors.
const BLOCK: usize = 2048;

// Copies src[i..i + n] to the same place of dst, by way of an array: it overlaps neither, and both copies count from 0 to n, so the compiler makes one memmove of
// both, and no array. By one `copy_from_slice`, which tests for overlap, above_field of a short key took a third longer.
fn copy_block(dst: &mut [u8], src: &[u8], i: usize, n: usize)
    requires { (n ≤ 2048) × (i + n ≤ length src.now) × (i + n ≤ length dst.old) }
    ensures { dst.new ≡ put dst.old i (slice i (i + n) src.now) }
{
    let mut block: [u8; BLOCK] = [0; BLOCK];
    copy_to(&mut block, 0, &src[i..i + n], 0, n);
    copy_to(dst, i, &block, 0, n);
}

// Copies the first n bytes of src to the front of dst, block by block. With each block's length by `min`, short keys took a tenth longer.
fn copy_blocks(dst: &mut [u8], src: &[u8], n: usize)
    requires { (n ≤ length src.now) × (n ≤ length dst.old) }
    ensures { dst.new ≡ put dst.old 0 (slice 0 n src.now) }
{
    let mut i: usize = 0;
    while BLOCK < n - i {
        copy_block(dst, src, i, BLOCK);
        i += BLOCK;
    }
    copy_block(dst, src, i, n - i);
}

// The same for whole keys. Those that do not stay in a processor's first cache go no faster by blocks.
pub fn copy_front(dst: &mut [u8], src: &[u8], n: usize)
    requires { (n ≤ length src.now) × (n ≤ length dst.old) }
    ensures { dst.new ≡ put dst.old 0 (slice 0 n src.now) }
{
    if n <= 4 * BLOCK {
        copy_blocks(dst, src, n);
    } else {
        copy_to(dst, 0, src, 0, n);
    }
}

// Copies to dst from o on the blocks that src begins with and that have no zero, and returns the place behind them: tested and copied in one pass.
// A `for` over `as_chunks` counts the same place, and took a fifth longer.
pub fn copy_clear(dst: &mut [u8], o: usize, src: &[u8]) -> usize
    requires { o + length src.now ≤ length dst.old }
    ensures { (result ≤ length src.now) × NoZero src.now 0 result × (dst.new ≡ put dst.old o (slice 0 result src.now)) }
{
    let mut i: usize = 0;
    while 64 <= src.len() - i && clear(&src[i..i + 64]) {
        copy_long(dst, o + i, src, i, i + 64);
        i += 64;
    }
    i
}

// Moves n bytes from one place of a buffer to another. The two may overlap.
// The lemmas are of a move by halves: with them an edit that moves the halves in a wrong order is refused for that alone.
#[tactic(auto, using(crate::proofs::Moves::move_up, crate::proofs::Moves::move_down))]
pub fn move_within(buf: &mut [u8], from: usize, to: usize, n: usize)
    requires { (from + n ≤ length buf.old) × (to + n ≤ length buf.old) }
    ensures { buf.new ≡ put buf.old to (take n (drop from buf.old)) }
{
    buf.copy_within(from..from + n, to);
}
