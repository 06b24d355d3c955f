// Integers as bytes that sort as the numbers do.
ghost use Rattle.std.specs.Prelude.{◌≡◌, ◌+◌, ◌-◌, ◌*◌, ◌^◌, ◌<◌, ◌≤◌, ◌∷◌, length, take, slice_index};
ghost use Rattle.format.specs.Scalar.{be, width, magnitude, uint_bytes, int_bytes};
ghost use Rattle.format.specs.Read.{number};
ghost use Rattle.format.specs.Fields.{put, get_i64_call, get_u64_call};
ghost use Rattle.scalar.specs.Answers.{got_int};
ghost use Rattle.scalar.specs.Numbers.{mark_width, unjudged};

use crate::taken::Taken;
use format::Refusal;

// From this word on a word means itself less 2^64.
pub const NEGATIVE: u64 = 0x8000_0000_0000_0000;

// How many bytes a magnitude has: 8 less its leading zero bits divided by 8.
pub fn int_width(mag: u64) -> usize
    ensures { result ≡ width mag }
{
    8 - (u64::leading_zeros(mag) / 8) as usize
}

// The magnitude of a negative word, that of the least integer included.
pub fn magnitude_of(w: u64) -> u64
    requires { 0 < w }
    ensures { result ≡ magnitude w }
{
    std::num::wrapping_sub_u64(0, w)
}

// How many bytes an unsigned integer takes.
pub fn uint_len(n: u64) -> usize
    ensures { result ≡ length (uint_bytes n) }
{
    1 + int_width(n)
}

// How many bytes the integer of a word takes.
pub fn int_len(w: u64) -> usize
    ensures { result ≡ length (int_bytes w) }
{
    if w < NEGATIVE {
        uint_len(w)
    } else {
        uint_len(magnitude_of(w))
    }
}

// Writes the k low bytes of n from a place on, high byte first: the last byte is the first to be known.
fn write_low(buf: &mut [u8], at: usize, k: usize, n: u64)
    requires { at + k ≤ length buf.old }
    ensures { buf.new ≡ put buf.old at (be k n) }
{
    let mut left = n;
    for j in (0..k).rev() {
        buf[at + j] = (left % 256) as u8;
        left = left / 256;
    }
}

// Writes a mark and the k low bytes of n behind it, and returns the place behind them.
pub fn write_marked(buf: &mut [u8], at: usize, mark: u8, k: usize, n: u64) -> usize
    requires { at + (k + 1) ≤ length buf.old }
    ensures { (result ≡ at + (k + 1)) × (buf.new ≡ put buf.old at (mark ∷ be k n)) }
{
    buf[at] = mark;
    write_low(buf, at + 1, k, n);
    at + 1 + k
}

// Writes an unsigned integer from a place on, and returns the place behind it.
pub fn write_u64(buf: &mut [u8], at: usize, n: u64) -> usize
    requires { at + length (uint_bytes n) ≤ length buf.old }
    ensures { (result ≡ at + length (uint_bytes n)) × (buf.new ≡ put buf.old at (uint_bytes n)) }
{
    let width = int_width(n);
    write_marked(buf, at, format::MARK_INT_ZERO + width as u8, width, n)
}

// Writes the integer of a word from a place on, and returns the place behind it.
pub fn write_i64(buf: &mut [u8], at: usize, w: u64) -> usize
    requires { at + length (int_bytes w) ≤ length buf.old }
    ensures { (result ≡ at + length (int_bytes w)) × (buf.new ≡ put buf.old at (int_bytes w)) }
{
    if w < NEGATIVE {
        return write_u64(buf, at, w);
    }
    let mag = magnitude_of(w);
    let width = int_width(mag);
    write_marked(buf, at, format::MARK_INT_ZERO - width as u8, width, !mag)
}

// The number that the first k bytes make, high byte first.
pub fn read_number(s: &[u8], k: usize) -> u64
    requires { (k ≤ 8) × (k ≤ length s.now) }
    ensures { (result ≡ number 0 (take k s.now)) × (result < 256 ^ k) }
{
    let mut n: u64 = 0;
    for byte in &s[..k] {
        n = n * 256 + u64::from(*byte);
    }
    n
}

// How many bytes follow a mark: an integer's as many as it is away from 48, a reference's 8; over 8 for a byte that is neither.
fn mark_width(mark: u8) -> usize
    ensures { result ≡ mark_width mark }
{
    if mark < format::MARK_INT_ZERO {
        return (format::MARK_INT_ZERO - mark) as usize;
    }
    if mark == format::MARK_FACT_REF {
        return 8;
    }
    (mark - format::MARK_INT_ZERO) as usize
}

// How many bytes the integer or the reference takes that the rest of a key begins with, by its mark alone: neither width nor range is judged. 0 for anything else,
// and where it is cut short: a length and no Option, since none of them takes 0 bytes and whoever passes over them adds it up.
pub fn unjudged_len(rest: &[u8]) -> usize
    ensures { result ≡ unjudged rest.now }
{
    if rest.len() == 0 {
        return 0;
    }
    let mark = rest[0];
    if mark < format::MARK_INT_NEG_MIN {
        return 0;
    }
    if format::MARK_FACT_REF < mark {
        return 0;
    }
    let width = mark_width(mark);
    if rest.len() <= width {
        return 0;
    }
    width + 1
}

// Reads an unsigned integer.
pub fn get_u64(bytes: &[u8]) -> Result<Taken<u64>, Refusal>
    ensures { got_int result ≡ get_u64_call bytes.now }
{
    if bytes.len() == 0 {
        return Err(Refusal::UnexpectedEof);
    }
    let mark = bytes[0];
    if mark < format::MARK_INT_ZERO {
        return Err(Refusal::UnexpectedMark(mark));
    }
    if format::MARK_INT_POS_MAX < mark {
        return Err(Refusal::UnexpectedMark(mark));
    }
    let width = (mark - format::MARK_INT_ZERO) as usize;
    if bytes.len() - 1 < width {
        return Err(Refusal::UnexpectedEof);
    }
    let n = read_number(&bytes[1..], width);
    if int_width(n) != width {
        return Err(Refusal::BadInteger);
    }
    Ok(Taken {
        value: n,
        used: width + 1,
    })
}

// The complement of a number within so many bytes.
fn complement(n: u64, width: usize) -> u64
    requires { (0 < width) × (width ≤ 8) × (n < 256 ^ width) }
    ensures { result ≡ 256 ^ width - 1 - n }
{
    (0xffff_ffff_ffff_ffff >> (64 - 8 * width)) - n
}

// Reads a negative integer, whose mark has been seen.
fn get_negative(bytes: &[u8]) -> Result<Taken<u64>, Refusal>
    requires { (0 < length bytes.now) × (0x40 ≤ slice_index bytes.now 0) × (slice_index bytes.now 0 < 0x48) }
    ensures { got_int result ≡ get_i64_call bytes.now }
{
    let width = (format::MARK_INT_ZERO - bytes[0]) as usize;
    if bytes.len() - 1 < width {
        return Err(Refusal::UnexpectedEof);
    }
    let mag = complement(read_number(&bytes[1..], width), width);
    if int_width(mag) != width {
        return Err(Refusal::BadInteger);
    }
    if NEGATIVE < mag {
        return Err(Refusal::Underflow);
    }
    Ok(Taken {
        value: std::num::wrapping_sub_u64(0, mag),
        used: width + 1,
    })
}

// Reads a signed integer as its word.
#[inline(always)] // as a call, which answers through memory, a short one takes up to half as long again
pub fn get_i64(bytes: &[u8]) -> Result<Taken<u64>, Refusal>
    ensures { got_int result ≡ get_i64_call bytes.now }
{
    if bytes.len() == 0 {
        return Err(Refusal::UnexpectedEof);
    }
    let mark = bytes[0];
    if mark < format::MARK_INT_ZERO {
        if mark < format::MARK_INT_NEG_MIN {
            return Err(Refusal::UnexpectedMark(mark));
        }
        return get_negative(bytes);
    }
    let read = get_u64(bytes)?;
    if read.value < NEGATIVE {
        Ok(read)
    } else {
        Err(Refusal::Overflow)
    }
}
