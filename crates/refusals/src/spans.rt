// U1: a span on the next field. What is accepted, of every kind of field, and what refuses a call. The lent buffers are full of EE: a refused call leaves all of
// it, an accepted one what lies behind the ends.
use crate::fill;
use format::Refusal;
use key::Ends;
use show::{Hex, first};
use std::io;

// Are the bytes from a place on still EE?
fn held(s: &[u8], from: usize) -> bool {
    s.iter().skip(from).all(|b| *b == 0xee)
}

fn held_line(
    rt: &impl Print,
    lower: &[u8],
    low: usize,
    upper: &[u8],
    high: usize,
) -> io::Result<()> {
    if held(lower, low) && held(upper, high) {
        println!(rt; "kept")
    } else {
        println!(rt; "changed")
    }
}

// An end, of a long one the length.
fn end_line(rt: &impl Print, s: &[u8], n: usize) -> io::Result<()> {
    if n <= 16 {
        println!(rt; "{}", Hex(first(s, n)))
    } else {
        println!(rt; "bytes {n}")
    }
}

fn ends_lines(
    rt: &impl Print,
    r: Result<Ends, Refusal>,
    lower: &[u8],
    upper: &[u8],
) -> io::Result<()> {
    match r {
        Ok(ends) => {
            end_line(rt, lower, ends.lower)?;
            end_line(rt, upper, ends.upper)?;
            held_line(rt, lower, ends.lower, upper, ends.upper)
        }
        Err(e) => {
            println!(rt; "{e}")?;
            held_line(rt, lower, 0, upper, 0)
        }
    }
}

// A span with room for sixteen bytes in each buffer, its lowest and highest without a pool.
fn span_line(
    rt: &impl Print,
    ty: &[u32],
    words: &[u64],
    pool: &[u8],
    lowest: &[u64],
    highest: &[u64],
) -> io::Result<()> {
    let mut lower = [0xeeu8; 16];
    let mut upper = [0xeeu8; 16];
    let r = key::span(
        ty, words, pool, lowest, b"", highest, b"", &mut lower, &mut upper,
    );
    ends_lines(rt, r, &lower, &upper)
}

// From 40 to 60 behind these fields.
fn first_line(rt: &impl Print, ty: &[u32], words: &[u64], pool: &[u8]) -> io::Result<()> {
    span_line(rt, ty, words, pool, &[1, 40], &[1, 60])
}

// On the first field: k is 0.
fn field_line(rt: &impl Print, ty: &[u32], lowest: &[u64], highest: &[u64]) -> io::Result<()> {
    span_line(rt, ty, &[5, 0], b"", lowest, highest)
}

// Behind tank 0A.
fn tank_line(rt: &impl Print, ty: &[u32], lowest: &[u64], highest: &[u64]) -> io::Result<()> {
    span_line(rt, ty, &[5, 1, 3, 1], b"\x0a", lowest, highest)
}

// Of blanks, behind these fields.
fn blank_line(rt: &impl Print, ty: &[u32], words: &[u64]) -> io::Result<()> {
    span_line(rt, ty, words, b"", &[0], &[0])
}

// A lowest above the highest is no refusal.
fn accepted(rt: &impl Print) -> io::Result<()> {
    println!(rt; "spans")?;
    first_line(rt, &[5, 2, 3, 1], &[5, 1, 3, 1], b"\x0a")?;
    first_line(rt, &[5, 2, 3, 1], &[5, 1, 3, 2], b"\x0a\x00")?;
    tank_line(rt, &[5, 2, 3, 1], &[1, 60], &[1, 40])?;
    field_line(rt, &[5, 1, 1], &[1, 0xffff_ffff_ffff_ffff], &[1, 0])
}

// No field behind the first k, or no record.
fn no_next_field(rt: &impl Print) -> io::Result<()> {
    println!(rt; "no next field")?;
    first_line(rt, &[5, 2, 3, 1], &[5, 2, 3, 1, 1, 7], b"\x0a")?;
    first_line(rt, &[5, 2, 3, 1], &[5, 3, 3, 1, 1, 7, 1, 7], b"\x0a")?;
    first_line(rt, &[5, 0], &[5, 0], b"")?;
    first_line(rt, &[1], &[5, 0], b"")?;
    first_line(rt, &[7, 5, 1, 1], &[5, 0], b"")
}

// Strings have a pool each.
fn names(rt: &impl Print) -> io::Result<()> {
    let mut lower = [0xeeu8; 16];
    let mut upper = [0xeeu8; 16];
    let r = key::span(
        &[5, 1, 2],
        &[5, 0],
        b"",
        &[2, 1],
        b"a",
        &[2, 2],
        b"b\x00",
        &mut lower,
        &mut upper,
    );
    ends_lines(rt, r, &lower, &upper)
}

// References, records and unions, bare at depth 0.
fn kinds(rt: &impl Print) -> io::Result<()> {
    println!(rt; "every kind of field")?;
    names(rt)?;
    field_line(
        rt,
        &[5, 1, 4, 7],
        &[4, 0x700_0000_0001],
        &[4, 0x7ff_ffff_ffff],
    )?;
    field_line(rt, &[5, 1, 5, 1, 1], &[5, 1, 1, 0], &[5, 1, 1, 1])?;
    field_line(rt, &[5, 1, 6, 2, 1, 1, 2, 2], &[6, 1, 1, 0], &[6, 2, 2, 0])
}

// A blank comes before every other value, so that there is nothing from 40 to it.
fn optional(rt: &impl Print) -> io::Result<()> {
    println!(rt; "optional fields")?;
    tank_line(rt, &[5, 2, 3, 7, 1], &[0], &[1, 60])?;
    tank_line(rt, &[5, 2, 3, 7, 1], &[0], &[0])?;
    tank_line(rt, &[5, 2, 3, 7, 1], &[1, 40], &[0])?;
    first_line(rt, &[5, 2, 7, 3, 1], &[5, 1, 0], b"")
}

// A record of one field, which is nested records: as the lowest and as the highest.
fn nested(rt: &impl Print, ty: &mut [u32], words: &mut [u64]) -> io::Result<()> {
    let mut lower = [0xeeu8; 514];
    let mut upper = [0xeeu8; 515];
    fill(ty);
    fill(words);
    let r = key::span(
        ty,
        &[5, 0],
        b"",
        words,
        b"",
        words,
        b"",
        &mut lower,
        &mut upper,
    );
    ends_lines(rt, r, &lower, &upper)
}

fn nested_fields(rt: &impl Print) -> io::Result<()> {
    println!(rt; "256 and 257 nested records as the next field")?;
    nested(rt, &mut [0u32; 514], &mut [0u64; 512])?;
    nested(rt, &mut [0u32; 516], &mut [0u64; 514])
}

// The type, then the three sheets, each before the field that is not there.
fn sheets_first(rt: &impl Print) -> io::Result<()> {
    println!(rt; "the sheets in their order")?;
    span_line(rt, &[9], &[9], b"", &[9], &[9])?;
    first_line(rt, &[1], &[0], b"")?;
    first_line(rt, &[5, 2, 3, 1], &[3, 1], b"\x0a")?;
    first_line(rt, &[1], &[9], b"")?;
    field_line(rt, &[1], &[9], &[1, 60])?;
    field_line(rt, &[1], &[1, 40], &[9])
}

// The k values in order, the lowest, the highest, each under its own type.
fn values_next(rt: &impl Print) -> io::Result<()> {
    println!(rt; "then the values")?;
    blank_line(rt, &[5, 2, 3, 1], &[5, 1, 1, 1])?;
    tank_line(rt, &[5, 2, 3, 1], &[0], &[2, 0])?;
    blank_line(rt, &[5, 3, 3, 1, 1], &[5, 2, 1, 1, 0])?;
    blank_line(rt, &[5, 3, 3, 1, 2], &[5, 2, 3, 0, 0])?;
    field_line(rt, &[5, 1, 6, 1, 1, 1], &[1, 0], &[6, 2, 1, 0])?;
    field_line(rt, &[5, 1, 6, 1, 1, 1], &[6, 1, 1, 0], &[6, 2, 1, 0])
}

// Behind tank 0A, in the caller's buffers.
fn room_line(
    rt: &impl Print,
    lowest: u64,
    highest: &[u64],
    lower: &mut [u8],
    upper: &mut [u8],
) -> io::Result<()> {
    let r = key::span(
        &[5, 2, 3, 1],
        &[5, 1, 3, 1],
        b"\x0a",
        &[1, lowest],
        b"",
        highest,
        b"",
        lower,
        upper,
    );
    ends_lines(rt, r, lower, upper)
}

// Room comes last, and the lower end's first.
fn rooms_last(rt: &impl Print) -> io::Result<()> {
    println!(rt; "then room")?;
    room_line(rt, 40, &[0], &mut [0xeeu8; 0], &mut [0xeeu8; 0])?;
    room_line(rt, 40, &[1, 60], &mut [0xeeu8; 4], &mut [0xeeu8; 0])?;
    room_line(rt, 40, &[1, 60], &mut [0xeeu8; 5], &mut [0xeeu8; 5])?;
    room_line(rt, 40, &[1, 60], &mut [0xeeu8; 5], &mut [0xeeu8; 6])
}

// 2^41 is longer than 0 by six bytes.
fn long_upper(rt: &impl Print) -> io::Result<()> {
    room_line(
        rt,
        0,
        &[1, 0x200_0000_0000],
        &mut [0xeeu8; 4],
        &mut [0xeeu8; 4],
    )?;
    room_line(
        rt,
        0,
        &[1, 0x200_0000_0000],
        &mut [0xeeu8; 4],
        &mut [0xeeu8; 11],
    )
}

// An end may be longer than a key.
fn longer_than_keys(rt: &impl Print) -> io::Result<()> {
    let mut lower = [0xeeu8; 65536];
    let mut upper = [0xeeu8; 65537];
    println!(rt; "behind 65,530 bytes of 01")?;
    let r = key::span(
        &[5, 2, 3, 1],
        &[5, 1, 3, 65530],
        &[1u8; 65530],
        &[1, 256],
        b"",
        &[1, 256],
        b"",
        &mut lower,
        &mut upper,
    );
    ends_lines(rt, r, &lower, &upper)
}

pub fn spans(rt: &impl Print) -> io::Result<()> {
    accepted(rt)?;
    no_next_field(rt)?;
    kinds(rt)?;
    optional(rt)?;
    nested_fields(rt)?;
    sheets_first(rt)?;
    values_next(rt)?;
    rooms_last(rt)?;
    long_upper(rt)?;
    longer_than_keys(rt)
}
