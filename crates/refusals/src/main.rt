// Runs each example of document 01's table that the whole-value calls can show, its specimens of nested records and of the longest key, blank fields, and spans.
#![tactic(auto)]

mod blanks; // blanks.rt: optional types, and a value's blanks
mod lines; // lines.rt: a call's answer on a line
mod spans; // spans.rt: spans on the next field

use crate::lines::{
    bounds_line, compare_line, decode_key_line, decode_line, encode_line, encoded, encoded_length,
    key_line, skip_line,
};
use show::{Hex, Out};
use std::io;

// A field of the key 53 0A 00 49 07 replaced by an integer.
fn replace_line(rt: &impl Print, field: usize, words: &[u64]) -> io::Result<()> {
    let mut buffer = [0x53, 0x0a, 0, 0x49, 7, 0xee, 0xee];
    let r = key::replace(&[5, 2, 3, 1], &mut buffer, 5, field, words, b"");
    show::line(rt, r, &buffer);
    println!(rt; "{}", Hex(&buffer))
}

fn strinc_line(rt: &impl Print, prefix: &[u8]) -> io::Result<()> {
    let mut out = [0u8; 8];
    let r = ends::strinc(prefix, &mut out);
    show::line(rt, r, &out);
    Ok(())
}

fn unexpected_eof(rt: &impl Print) -> io::Result<()> {
    println!(rt; "1")?;
    decode_line(rt, &[1], b"")
}

fn unexpected_mark(rt: &impl Print) -> io::Result<()> {
    println!(rt; "2")?;
    decode_line(rt, &[1], b"\x21\x00")
}

fn unexpected_terminator(rt: &impl Print) -> io::Result<()> {
    println!(rt; "3")?;
    skip_line(rt, b"\x00", 0, true)?;
    skip_line(rt, b"\x00", 0, false)?;
    skip_line(rt, b"\x00\xff", 0, true)
}

fn bad_string(rt: &impl Print) -> io::Result<()> {
    println!(rt; "4")?;
    decode_line(rt, &[2], b"\x21\x80\x00")
}

fn bad_integer(rt: &impl Print) -> io::Result<()> {
    println!(rt; "5")?;
    decode_line(rt, &[1], b"\x4a\x00\x01")
}

fn bad_record(rt: &impl Print) -> io::Result<()> {
    println!(rt; "6")?;
    encode_line(rt, &[5, 1, 1], &[5, 0], b"")
}

fn fact_ref_predicate(rt: &impl Print) -> io::Result<()> {
    println!(rt; "8")?;
    encode_line(rt, &[4, 7], &[4, 0x800_0000_0001], b"")?;
    encode_line(rt, &[4, 7], &[4, 0x700_0000_0001], b"")
}

fn reserved_fact_id(rt: &impl Print) -> io::Result<()> {
    println!(rt; "9")?;
    decode_line(rt, &[4, 0], b"\x51\x00\x00\x00\x00\x00\x00\x00\x00")
}

fn unknown_discriminant(rt: &impl Print) -> io::Result<()> {
    println!(rt; "10")?;
    decode_line(rt, &[6, 1, 1, 1], b"\x52\x49\x02\x48\x00")?;
    decode_line(rt, &[6, 1, 1, 1], b"\x52\x49\x01\x48\x00")
}

fn type_mismatch(rt: &impl Print) -> io::Result<()> {
    println!(rt; "11")?;
    encode_line(rt, &[1], &[0], b"")
}

fn bad_union(rt: &impl Print) -> io::Result<()> {
    println!(rt; "12")?;
    encode_line(rt, &[6, 1, 1, 1], &[6, 1, 0], b"")?;
    encode_line(rt, &[6, 1, 1, 1], &[6, 1, 1, 0], b"")
}

fn overflow(rt: &impl Print) -> io::Result<()> {
    println!(rt; "13")?;
    decode_line(rt, &[1], b"\x50\x80\x00\x00\x00\x00\x00\x00\x00")
}

fn underflow(rt: &impl Print) -> io::Result<()> {
    println!(rt; "14")?;
    decode_line(rt, &[1], b"\x40\x7f\xff\xff\xff\xff\xff\xff\xfe")
}

fn bad_type(rt: &impl Print) -> io::Result<()> {
    println!(rt; "15")?;
    encode_line(rt, &[], &[1, 0], b"")?;
    decode_line(rt, &[], b"\x48")
}

fn bad_value(rt: &impl Print) -> io::Result<()> {
    println!(rt; "16")?;
    encode_line(rt, &[2], &[2, 5], b"abc")?;
    compare_line(rt, &[1, 7], &[1])?;
    compare_line(rt, &[1, 7], &[1, 0xffff_ffff_ffff_ffff])?;
    compare_line(rt, &[0], &[1, 7])
}

fn no_room(rt: &impl Print) -> io::Result<()> {
    let mut none = [0u8; 0];
    println!(rt; "17")?;
    encoded(rt, encode::encode_typed(&[1], &[1, 0], b"", &mut none), b"")
}

fn no_field(rt: &impl Print) -> io::Result<()> {
    println!(rt; "18")?;
    replace_line(rt, 2, &[1, 0])?;
    bounds_line(rt, &[1], b"\x48", 0)?;
    bounds_line(rt, &[5, 2, 3, 1], b"\x53\x0a\x00\x49\x07", 3)
}

// The same calls, accepted.
fn fields(rt: &impl Print) -> io::Result<()> {
    bounds_line(rt, &[5, 2, 3, 1], b"\x53\x0a\x00\x49\x07", 1)?;
    replace_line(rt, 1, &[1, 0])?;
    replace_line(rt, 1, &[1, 256])
}

fn no_bound(rt: &impl Print) -> io::Result<()> {
    println!(rt; "19")?;
    strinc_line(rt, b"\xff")?;
    strinc_line(rt, b"\x0a\xff")
}

// The calls that give each number, where a whole call can; 7 comes with the longest key, 20 is keylist's.
fn of_the_bytes(rt: &impl Print) -> io::Result<()> {
    unexpected_eof(rt)?;
    unexpected_mark(rt)?;
    unexpected_terminator(rt)?;
    bad_string(rt)?;
    bad_integer(rt)?;
    bad_record(rt)
}

fn of_the_value(rt: &impl Print) -> io::Result<()> {
    fact_ref_predicate(rt)?;
    reserved_fact_id(rt)?;
    unknown_discriminant(rt)?;
    type_mismatch(rt)?;
    bad_union(rt)?;
    overflow(rt)?;
    underflow(rt)
}

fn of_the_port(rt: &impl Print) -> io::Result<()> {
    bad_type(rt)?;
    bad_value(rt)?;
    no_room(rt)?;
    no_field(rt)?;
    fields(rt)?;
    no_bound(rt)
}

fn encoded_keys(rt: &impl Print) -> io::Result<()> {
    println!(rt; "keys")?;
    key_line(rt, &[5, 0], &[5, 0], b"")?;
    encode_line(rt, &[5, 0], &[5, 0], b"")?;
    key_line(rt, &[5, 2, 3, 1], &[5, 2, 3, 1, 1, 7], b"\x0a")
}

fn decoded_keys(rt: &impl Print) -> io::Result<()> {
    decode_key_line(rt, &[5, 2, 3, 1], b"\x53\x0a\x00\x49\x07")?;
    decode_key_line(rt, &[5, 2, 3, 1], b"\x53\x0a\x00\xff\x00\x49\x07")?;
    decode_key_line(rt, &[5, 2, 3, 1], b"\x53\x0a")?;
    decode_key_line(rt, &[5, 2, 3, 1], b"\x53\x0a\x00\x49\x07\x00")
}

fn skipped_fields(rt: &impl Print) -> io::Result<()> {
    skip_line(rt, b"\x53\x0a\x00\xff\x00\x49\x07", 0, false)?;
    skip_line(rt, b"\x53\x0a\x00\xff\x00\x49\x07", 5, false)?;
    skip_line(rt, b"\x53\x0a\x00\xff\x00\x49\x07", 8, false)
}

// Records of one field, one in another, the innermost empty: a kind, a count, and so on, on a sheet of types or of values.
pub fn fill<T: From<u8> + Drop>(sheet: &mut [T]) {
    for (i, word) in sheet.iter_mut().enumerate() {
        *word = T::from(if i % 2 == 0 { 5 } else { 1 });
    }
    if let Some(count) = sheet.last_mut() {
        *count = T::from(0);
    }
}

fn nested(rt: &impl Print, ty: &mut [u32], words: &mut [u64], out: &mut [u8]) -> io::Result<()> {
    fill(ty);
    fill(words);
    encoded_length(rt, encode::encode_typed(ty, words, b"", out))
}

fn nested_records(rt: &impl Print) -> io::Result<()> {
    let mut out = [0u8; 514];
    println!(rt; "256 and 257 nested records")?;
    nested(rt, &mut [0u32; 512], &mut [0u64; 512], &mut out)?;
    nested(rt, &mut [0u32; 514], &mut [0u64; 514], &mut out)
}

fn bytes_key(rt: &impl Print, pool: &[u8], out: &mut [u8]) -> io::Result<()> {
    encoded_length(
        rt,
        encode::encode_key(&[3], &[3, pool.len() as u64], pool, out),
    )
}

fn longest_key(rt: &impl Print) -> io::Result<()> {
    let mut out = [0u8; 65532];
    println!(rt; "65,529 and 65,530 bytes of 01")?;
    bytes_key(rt, &[1u8; 65529], &mut out)?;
    bytes_key(rt, &[1u8; 65530], &mut out)
}

fn main(rt: HostRuntime) -> io::Result<()> {
    let rt = Out(rt);
    of_the_bytes(&rt)?;
    of_the_value(&rt)?;
    of_the_port(&rt)?;
    encoded_keys(&rt)?;
    decoded_keys(&rt)?;
    skipped_fields(&rt)?;
    nested_records(&rt)?;
    longest_key(&rt)?;
    blanks::blanks(&rt)?;
    spans::spans(&rt)
}
