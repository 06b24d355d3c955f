// A call's answer on a line: bytes, numbers, or refusal and detail.
use decode::{Decoded, Refused};
use encode::Encoded;
use format::Refusal;
use show::{Hex, first};
use std::cmp::Ordering;
use std::io;

pub fn encoded(rt: &impl Print, r: Result<Encoded, Refusal>, out: &[u8]) -> io::Result<()> {
    show::line(rt, r.map(|done| done.length), out);
    Ok(())
}

// A value encoded with room for sixteen bytes.
pub fn encode_line(rt: &impl Print, ty: &[u32], words: &[u64], pool: &[u8]) -> io::Result<()> {
    let mut out = [0u8; 16];
    let r = encode::encode_typed(ty, words, pool, &mut out);
    encoded(rt, r, &out)
}

pub fn key_line(rt: &impl Print, ty: &[u32], words: &[u64], pool: &[u8]) -> io::Result<()> {
    let mut out = [0u8; 16];
    let r = encode::encode_key(ty, words, pool, &mut out);
    encoded(rt, r, &out)
}

// The values begun stand behind each answer of decoding.
pub fn decoded(rt: &impl Print, r: Result<Decoded, Refused>) -> io::Result<()> {
    match r {
        Ok(Decoded { words, pool, begun }) => println!(rt;
            "words {words} pool {pool}\nbegun {begun}"
        ),
        Err(Refused { why, begun }) => println!(rt; "{why}\nbegun {begun}"),
    }
}

pub fn decode_line(rt: &impl Print, ty: &[u32], bytes: &[u8]) -> io::Result<()> {
    let mut words = [0u64; 8];
    let mut pool = [0u8; 8];
    decoded(rt, decode::decode_typed(ty, bytes, &mut words, &mut pool))
}

pub fn decode_key_line(rt: &impl Print, ty: &[u32], bytes: &[u8]) -> io::Result<()> {
    let mut words = [0u64; 8];
    let mut pool = [0u8; 8];
    decoded(rt, decode::decode_key(ty, bytes, &mut words, &mut pool))
}

pub fn skip_line(
    rt: &impl Print,
    bytes: &[u8],
    start: usize,
    require_escape_null: bool,
) -> io::Result<()> {
    match skip::skip(bytes, start, require_escape_null) {
        Ok(end) => println!(rt; "end {end}"),
        Err(e) => println!(rt; "{e}"),
    }
}

pub fn compare_line(rt: &impl Print, a: &[u64], b: &[u64]) -> io::Result<()> {
    match order::compare(a, b"", b, b"") {
        Ok(Ordering::Less) => println!(rt; "less"),
        Ok(Ordering::Equal) => println!(rt; "equal"),
        Ok(Ordering::Greater) => println!(rt; "greater"),
        Err(e) => println!(rt; "{e}"),
    }
}

pub fn bounds_line(rt: &impl Print, ty: &[u32], key: &[u8], k: usize) -> io::Result<()> {
    let mut lower = [0u8; 8];
    let mut upper = [0u8; 8];
    match key::bounds(ty, key, k, &mut lower, &mut upper) {
        Ok(ends) => {
            println!(rt; "{}", Hex(first(&lower, ends.lower)))?;
            println!(rt; "{}", Hex(first(&upper, ends.upper)))
        }
        Err(e) => println!(rt; "{e}"),
    }
}

// How many bytes a call wrote.
pub fn length_line(rt: &impl Print, r: Result<usize, Refusal>) -> io::Result<()> {
    match r {
        Ok(len) => println!(rt; "bytes {len}"),
        Err(e) => println!(rt; "{e}"),
    }
}

pub fn encoded_length(rt: &impl Print, r: Result<Encoded, Refusal>) -> io::Result<()> {
    length_line(rt, r.map(|done| done.length))
}
