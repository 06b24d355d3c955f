// Runs the specimens of document 01 that need single fields and sheets alone, and prints what the code answers: bytes in hexadecimal, or refusal and detail.
#![tactic(auto)]

mod least_ends; // least_ends.rt: the least end above a prefix
mod optional; // optional.rt: word 7 on type sheets
mod searches; // searches.rt: the search for a discriminant, and how many alternatives it looks at

use scalar::{Taken, UnionTag};
use show::{Hex, Out, first};
use std::io;

// An integer written into a buffer of its own.
fn int_line(rt: &impl Print, w: u64) -> io::Result<()> {
    let mut buf = [0u8; 9];
    let r = scalar::put_i64(&mut buf, 0, w);
    show::line(rt, r, &buf);
    Ok(())
}

// An integer read: its word and the bytes it took.
fn get_line(rt: &impl Print, s: &[u8]) -> io::Result<()> {
    match scalar::get_i64(s) {
        Ok(Taken { value, used }) => println!(rt; "{value:016x} {used}"),
        Err(e) => println!(rt; "{e}"),
    }
}

fn str_line(rt: &impl Print, s: &[u8]) -> io::Result<()> {
    let mut buf = [0u8; 16];
    let r = scalar::put_str(&mut buf, 0, s);
    show::line(rt, r, &buf);
    Ok(())
}

// A string read: its payload, in the key or in the scratch buffer.
fn text_line(rt: &impl Print, key: &[u8], scratch: &mut [u8]) -> io::Result<()> {
    let got = scalar::get_str(key, scratch);
    match got {
        Ok(_) => println!(rt; "{}", Hex(scalar::payload(key, scratch, got))),
        Err(e) => println!(rt; "{e}"),
    }
}

fn strinc_line(rt: &impl Print, prefix: &[u8]) -> io::Result<()> {
    let mut buf = [0u8; 8];
    let r = ends::strinc(prefix, &mut buf);
    show::line(rt, r, &buf);
    Ok(())
}

fn integers(rt: &impl Print) -> io::Result<()> {
    println!(rt; "integers")?;
    int_line(rt, 0)?;
    int_line(rt, 255)?;
    int_line(rt, 256)?;
    int_line(rt, 0xffff_ffff_ffff_ffff)?;
    int_line(rt, 0xffff_ffff_ffff_ff01)?;
    int_line(rt, 0xffff_ffff_ffff_ff00)?;
    int_line(rt, 0xffff_ffff_ffff_feff)?;
    int_line(rt, 0x7fff_ffff_ffff_ffff)?;
    int_line(rt, 0x8000_0000_0000_0000)
}

fn readings(rt: &impl Print) -> io::Result<()> {
    println!(rt; "integers read")?;
    get_line(rt, b"")?;
    get_line(rt, b"\x21\x00")?;
    get_line(rt, b"\x4a\x00\x01")?;
    get_line(rt, b"\x50\x80\x00\x00\x00\x00\x00\x00\x00")?;
    get_line(rt, b"\x40\x7f\xff\xff\xff\xff\xff\xff\xfe")?;
    get_line(rt, b"\x40\x7f\xff\xff\xff\xff\xff\xff\xff")?;
    get_line(rt, b"\x47\xff")
}

fn strings(rt: &impl Print) -> io::Result<()> {
    let mut scratch = [0u8; 8];
    let mut none = [0u8; 0];
    println!(rt; "strings")?;
    str_line(rt, b"\x00")?;
    str_line(rt, b"\xff")?;
    text_line(rt, b"\x21\x80\x00", &mut scratch)?;
    text_line(rt, b"\x21\x00\xff\x00", &mut scratch)?;
    text_line(rt, b"\x21\x00\xff\x00", &mut none)?;
    text_line(rt, b"\x21\xe2\x00", &mut scratch)?;
    text_line(rt, b"\x21\x41\x00", &mut none)
}

fn judged(rt: &impl Print, admitted: bool) -> io::Result<()> {
    if admitted {
        println!(rt; "admitted")
    } else {
        println!(rt; "not admitted")
    }
}

fn sheets(rt: &impl Print) -> io::Result<()> {
    println!(rt; "sheets")?;
    judged(rt, sheet::admit_type(&[0u32; 0]))?;
    judged(rt, sheet::admit_type(&[5u32, 2, 3, 1]))?;
    judged(rt, sheet::admit_type(&[5u32, 4294967295, 1]))?;
    judged(rt, sheet::admit_value(&[2u64, 5], b"abc"))?;
    judged(rt, sheet::admit_value(&[5u64, 2, 3, 1, 1, 7], b"\x0a"))?;
    judged(rt, sheet::admit_value(&[6u64, 4294967296, 1, 0], b""))
}

fn others(rt: &impl Print) -> io::Result<()> {
    println!(rt; "tags, references, ends")?;
    let tag = UnionTag::new(1);
    println!(rt; "{}", Hex(first(&tag.bytes, tag.len)))?;
    println!(rt; "{}", Hex(&scalar::fact_ref_bytes(0x700_0000_0001)))?;
    strinc_line(rt, b"\x53\x0a\x00")?;
    strinc_line(rt, b"\x0a\xff")?;
    strinc_line(rt, b"\xff")?;
    strinc_line(rt, b"")
}

fn main(rt: HostRuntime) -> io::Result<()> {
    let rt = Out(rt);
    integers(&rt)?;
    readings(&rt)?;
    strings(&rt)?;
    sheets(&rt)?;
    others(&rt)?;
    searches::searches(&rt)?;
    least_ends::least_ends(&rt)?;
    optional::optional(&rt)
}
