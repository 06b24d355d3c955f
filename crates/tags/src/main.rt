// How many zeros were escaped, as the two encoding calls show it. Each line has a call, its refusal, detail, length and zeros, and the bytes it wrote.
#![tactic(auto)]

use show::{Hex, Out, first};
use std::io;
use tuple::answers::Encoded;
use tuple::sheets;

fn answer(rt: &impl Print, call: &str, a: Encoded) -> io::Result<()> {
    print!(rt;
        "{call} {} {} {} {}",
        a.refusal, a.detail, a.length, a.zeros
    )
}

fn answer_line(rt: &impl Print, call: &str, a: Encoded, out: &[u8]) -> io::Result<()> {
    answer(rt, call, a)?;
    if 0 < a.length {
        print!(rt; " ")?;
    }
    println!(rt; "{}", Hex(first(out, a.length as usize)))
}

// A value encoded as a key, with room for so many bytes.
fn key_in(
    rt: &impl Print,
    ty: &[u32],
    words: &[u64],
    pool: &[u8],
    out: &mut [u8],
) -> io::Result<()> {
    let a = sheets::tuple_encode_key(ty, words, pool, out);
    answer_line(rt, "key", a, out)
}

fn typed_in(
    rt: &impl Print,
    ty: &[u32],
    words: &[u64],
    pool: &[u8],
    out: &mut [u8],
) -> io::Result<()> {
    let a = sheets::tuple_encode_typed(ty, words, pool, out);
    answer_line(rt, "typed", a, out)
}

// Both calls, with room enough.
fn both(rt: &impl Print, ty: &[u32], words: &[u64], pool: &[u8]) -> io::Result<()> {
    key_in(rt, ty, words, pool, &mut [0u8; 40])?;
    typed_in(rt, ty, words, pool, &mut [0u8; 40])
}

// Each zero of the payload counts, and neither an FF nor the run's end.
fn runs(rt: &impl Print) -> io::Result<()> {
    println!(rt; "tags and names")?;
    both(rt, &[3], &[3, 3], b"\x00a\x00")?;
    both(rt, &[2], &[2, 1], b"\x00")?;
    both(rt, &[3], &[3, 3], b"\x0a\x00\x00")?;
    both(rt, &[3], &[3, 3], b"\x0a\x01\x02")?;
    both(rt, &[3], &[3, 2], b"\xff\xff")?;
    both(rt, &[3], &[3, 0], b"")
}

// Integers, references, discriminants, blanks and the ends of groups have zeros in their bytes that were not escaped.
fn others(rt: &impl Print) -> io::Result<()> {
    println!(rt; "zeros that do not count")?;
    both(rt, &[1], &[1, 256], b"")?;
    both(rt, &[4, 7], &[4, 0x700_0000_0001], b"")?;
    both(rt, &[6, 1, 256, 3], &[6, 256, 3, 0], b"")?;
    both(rt, &[5, 1, 7, 3], &[5, 1, 0], b"")?;
    both(rt, &[5, 1, 5, 0], &[5, 1, 5, 0], b"")?;
    both(
        rt,
        &[5, 4, 1, 4, 7, 7, 3, 3],
        &[5, 4, 1, 256, 4, 0x700_0000_0001, 0, 3, 1],
        b"\x00",
    )
}

// Groups pass the sum upward, from every depth and from every field.
fn sums(rt: &impl Print) -> io::Result<()> {
    println!(rt; "sums")?;
    both(
        rt,
        &[5, 3, 3, 5, 1, 2, 6, 1, 1, 3],
        &[5, 3, 3, 1, 5, 1, 2, 2, 6, 1, 3, 1],
        b"\x00\x00\x00\x00",
    )?;
    both(rt, &[5, 2, 3, 3], &[5, 2, 3, 2, 3, 1], b"\x00\x00\x01")?;
    both(rt, &[5, 2, 3, 3], &[5, 2, 3, 2, 3, 1], b"\x01\x01\x00")?;
    both(
        rt,
        &[5, 2, 5, 2, 5, 1, 3, 3, 7, 2],
        &[5, 2, 5, 2, 5, 1, 3, 2, 3, 1, 2, 3],
        b"\x00\x00\x00\x00\x00\x00",
    )?;
    both(rt, &[5, 0], &[5, 0], b"")
}

// A refused call shows 0, whatever the pool holds.
fn refused(rt: &impl Print) -> io::Result<()> {
    println!(rt; "refused")?;
    key_in(rt, &[3], &[3, 1], b"\x00", &mut [0u8; 3])?;
    typed_in(rt, &[3], &[3, 1], b"\x00", &mut [0u8; 3])?;
    both(rt, &[5, 2, 3, 1], &[5, 2, 3, 1, 0], b"\x00")?;
    both(rt, &[6, 1, 1, 5, 2, 3, 1], &[6, 1, 5, 2, 3, 1, 0], b"\x00")?;
    both(rt, &[5, 1, 3], &[5, 2, 3, 1, 3, 1], b"\x00\x00")?;
    both(rt, &[7, 7, 3], &[3, 1], b"\x00")?;
    both(rt, &[3], &[3, 1], b"\x00\x00")
}

// 40,000 zeros are a key of 80,002 bytes, which is too long, and pass encode_typed.
fn many(rt: &impl Print) -> io::Result<()> {
    let pool = [0u8; 40000];
    let mut out = [1u8; 80002];
    println!(rt; "40,000 zeros")?;
    answer(
        rt,
        "key",
        sheets::tuple_encode_key(&[3], &[3, 40000], &pool, &mut out),
    )?;
    println!(rt; "")?;
    answer(
        rt,
        "typed",
        sheets::tuple_encode_typed(&[3], &[3, 40000], &pool, &mut out),
    )?;
    println!(rt; "")
}

fn main(rt: HostRuntime) -> io::Result<()> {
    let rt = Out(rt);
    runs(&rt)?;
    others(&rt)?;
    sums(&rt)?;
    refused(&rt)?;
    many(&rt)
}
