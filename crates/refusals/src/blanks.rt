// U2: blank fields. What is written and read of optional types, the values begun, and what refuses a value or a key.
use crate::lines::{
    bounds_line, compare_line, decode_key_line, decode_line, decoded, encode_line, encoded,
    encoded_length, key_line, length_line, skip_line,
};
use std::io;

// 00 at depth 0, 00 FF inside a group, by the groups that are open.
fn written(rt: &impl Print) -> io::Result<()> {
    println!(rt; "blanks written")?;
    key_line(rt, &[5, 2, 7, 3, 1], &[5, 2, 0, 1, 7], b"")?;
    encode_line(rt, &[5, 2, 7, 3, 1], &[5, 2, 0, 1, 7], b"")?;
    encode_line(rt, &[6, 1, 1, 7, 1], &[6, 1, 0], b"")?;
    key_line(rt, &[5, 1, 5, 2, 7, 1, 7, 2], &[5, 1, 5, 2, 0, 0], b"")?;
    key_line(rt, &[5, 2, 7, 1, 7, 2], &[5, 2, 0, 0], b"")?;
    key_line(rt, &[7, 6, 0], &[0], b"")
}

// A bare blank is one byte of the key's length.
fn lengths(rt: &impl Print) -> io::Result<()> {
    let mut out = [0u8; 65532];
    let mut two = [0u8; 2];
    println!(rt; "their length")?;
    encoded_length(
        rt,
        encode::encode_key(
            &[5, 2, 7, 1, 3],
            &[5, 2, 0, 3, 65528],
            &[1u8; 65528],
            &mut out,
        ),
    )?;
    encoded_length(
        rt,
        encode::encode_key(
            &[5, 2, 7, 1, 3],
            &[5, 2, 0, 3, 65529],
            &[1u8; 65529],
            &mut out,
        ),
    )?;
    encoded_length(
        rt,
        encode::encode_key(&[7, 3], &[3, 65530], &[1u8; 65530], &mut out),
    )?;
    encoded(
        rt,
        encode::encode_key(&[5, 2, 7, 3, 1], &[5, 2, 0, 1, 7], b"", &mut two),
        b"",
    )
}

// `7 5 ..` at the top is no record type: its key is the group, and it has no fields to bound or replace.
fn at_the_top(rt: &impl Print) -> io::Result<()> {
    let mut buffer = [0u8; 3];
    println!(rt; "an optional record at the top")?;
    key_line(rt, &[7, 5, 1, 1], &[0], b"")?;
    key_line(rt, &[7, 5, 1, 1], &[5, 1, 1, 7], b"")?;
    decode_key_line(rt, &[7, 5, 1, 1], b"\x00")?;
    decode_key_line(rt, &[7, 5, 1, 1], b"\x22\x49\x07\x00")?;
    decode_key_line(rt, &[7, 5, 1, 1], b"\x49\x07")?;
    bounds_line(rt, &[7, 5, 1, 1], b"\x00", 0)?;
    length_line(
        rt,
        key::replace(&[7, 5, 1, 1], &mut buffer, 1, 0, &[0], b""),
    )
}

// A first byte that is no null at its depth is read as the type behind word 7.
fn read_behind(rt: &impl Print) -> io::Result<()> {
    println!(rt; "no null at its depth")?;
    decode_key_line(rt, &[7, 1], b"")?;
    decode_key_line(rt, &[7, 1], b"\x21\x00")?;
    decode_key_line(rt, &[7, 1], b"\x4a\x00\x01")?;
    decode_key_line(rt, &[7, 1], b"\x00\xff")?;
    decode_key_line(rt, &[5, 2, 7, 1, 1], b"\x00\xff")?;
    decode_line(rt, &[6, 1, 1, 7, 1], b"\x52\x49\x01\x00")?;
    decode_line(rt, &[6, 1, 1, 7, 1], b"\x52\x49\x01\x00\x00")?;
    decode_line(rt, &[6, 1, 1, 7, 1], b"\x52\x49\x01")?;
    decode_line(rt, &[6, 1, 1, 7, 1], b"\x52\x49\x01\x00\xff")?;
    decode_line(rt, &[6, 1, 1, 7, 1], b"\x52\x49\x01\x00\xff\x00")
}

// A group record looks for its end first.
fn ends_first(rt: &impl Print) -> io::Result<()> {
    println!(rt; "a group's end before an optional field")?;
    decode_line(rt, &[5, 1, 7, 1], b"\x22\x00")?;
    decode_line(rt, &[5, 1, 7, 1], b"\x22\x00\x00")?;
    decode_line(rt, &[5, 1, 7, 1], b"\x22\x00\xff\x00")?;
    decode_line(rt, &[5, 1, 7, 1], b"\x22\x00\xff\x00\xff")?;
    decode_line(rt, &[5, 1, 1], b"\x22\x00\xff\x00")
}

// A value other than Null is encoded as the type behind word 7, with its refusals.
fn written_behind(rt: &impl Print) -> io::Result<()> {
    println!(rt; "other values")?;
    encode_line(rt, &[7, 1], &[2, 0], b"")?;
    encode_line(rt, &[7, 5, 0], &[1, 0], b"")?;
    encode_line(rt, &[6, 1, 1, 7, 1], &[6, 1, 2, 0], b"")?;
    encode_line(rt, &[6, 1, 1, 1], &[6, 1, 0], b"")?;
    encode_line(rt, &[5, 2, 7, 1, 1], &[5, 2, 0, 0], b"")?;
    encode_line(rt, &[7, 5, 1, 1], &[5, 0], b"")?;
    encode_line(rt, &[7, 6, 1, 1, 1], &[6, 2, 0], b"")?;
    encode_line(rt, &[7, 4, 7], &[4, 0], b"")?;
    encode_line(rt, &[7, 4, 7], &[4, 0x800_0000_0001], b"")
}

// One value begun, blank or filled, and one word on the sheet.
fn counted(rt: &impl Print) -> io::Result<()> {
    let mut four = [0u64; 4];
    let mut none = [0u8; 0];
    println!(rt; "values begun")?;
    decode_key_line(rt, &[5, 2, 7, 1, 7, 1], b"\x00\x49\x07")?;
    decode_key_line(rt, &[5, 2, 7, 1, 7, 1], b"\x49\x07\x00")?;
    decode_key_line(rt, &[5, 2, 7, 1, 7, 1], b"\x00\x22")?;
    decode_key_line(rt, &[5, 2, 7, 1, 7, 1], b"\x00")?;
    decode_key_line(rt, &[5, 2, 7, 3, 1], b"\x00\x49\x07")?;
    decoded(
        rt,
        decode::decode_key(&[5, 2, 7, 3, 1], b"\x00\x49\x07", &mut four, &mut none),
    )
}

// Null comes first, and skip passes a key's blank where no escape is required.
fn ordered(rt: &impl Print) -> io::Result<()> {
    println!(rt; "order and skip")?;
    compare_line(rt, &[0], &[2, 0])?;
    skip_line(rt, b"\x00\x49\x07", 0, false)?;
    skip_line(rt, b"\x00\x49\x07", 0, true)?;
    skip_line(rt, b"\x22\x00\xff\x49\x07\x00", 0, true)
}

pub fn blanks(rt: &impl Print) -> io::Result<()> {
    written(rt)?;
    lengths(rt)?;
    at_the_top(rt)?;
    read_behind(rt)?;
    ends_first(rt)?;
    written_behind(rt)?;
    counted(rt)?;
    ordered(rt)
}
