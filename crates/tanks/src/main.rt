// The ink house's case: tanks whose tags are 0A and 0A 00, alone and inside a record, integers at a change of width, and recipe lines without a supplier's lot. For
// each pair it prints both keys, the ends that the bounds call gives for the first one's first field, which of the two keys lies between them, and which would with
// strinc as the upper end. Then the spans of batches of the two tanks.
#![tactic(auto)]

mod keys; // keys.rt: keys, and whether one lies between two ends
mod spans; // spans.rt: spans on the next field, and the batches that they take in

use crate::keys::{between, key};
use show::{Hex, Out, first};
use std::io;

fn taken_in(rt: &impl Print, a: bool, b: bool) -> io::Result<()> {
    print!(rt; "  takes in:")?;
    if a {
        print!(rt; " first")?;
    }
    if b {
        print!(rt; " second")?;
    }
    println!(rt; "")
}

fn ends_line(rt: &impl Print, a: &[u8], b: &[u8], lower: &[u8], upper: &[u8]) -> io::Result<()> {
    print!(rt; "{} to {}", Hex(lower), Hex(upper))?;
    taken_in(rt, between(a, lower, upper), between(b, lower, upper))
}

// The same with strinc's end.
fn strinc_line(rt: &impl Print, a: &[u8], b: &[u8], lower: &[u8]) -> io::Result<()> {
    let mut upper = [0u8; 32];
    print!(rt; "  strinc ")?;
    match ends::strinc(lower, &mut upper) {
        Ok(n) => ends_line(rt, a, b, lower, first(&upper, n)),
        Err(e) => println!(rt; "{e}"),
    }
}

fn bounds_line(rt: &impl Print, ty: &[u32], a: &[u8], b: &[u8], k: usize) -> io::Result<()> {
    let mut lower = [0u8; 32];
    let mut upper = [0u8; 32];
    match key::bounds(ty, a, k, &mut lower, &mut upper) {
        Ok(ends) => {
            print!(rt; "  bounds ")?;
            let low = first(&lower, ends.lower);
            ends_line(rt, a, b, low, first(&upper, ends.upper))?;
            strinc_line(rt, a, b, low)
        }
        Err(e) => println!(rt; "{e}"),
    }
}

fn pair(
    rt: &impl Print,
    ty: &[u32],
    words_a: &[u64],
    pool_a: &[u8],
    words_b: &[u64],
    pool_b: &[u8],
) -> io::Result<()> {
    let mut a = [0u8; 32];
    let mut b = [0u8; 32];
    let a = key(rt, ty, words_a, pool_a, &mut a)?;
    let b = key(rt, ty, words_b, pool_b, &mut b)?;
    println!(rt; "  first  {}", Hex(a))?;
    println!(rt; "  second {}", Hex(b))?;
    bounds_line(rt, ty, a, b, 1)
}

// Tank 0A's tag replaced by 0A 00 in the key's own buffer: its key leaves the range of tank 0A.
fn renamed(rt: &impl Print) -> io::Result<()> {
    let ty = [5, 2, 3, 1];
    let mut buffer = [0x53, 0x0a, 0, 0x49, 7, 0xee, 0xee, 0xee];
    match key::replace(&ty, &mut buffer, 5, 0, &[3, 2], b"\x0a\x00") {
        Ok(n) => {
            println!(rt; "  buffer {}", Hex(&buffer))?;
            bounds_line(rt, &ty, b"\x53\x0a\x00\x49\x07", first(&buffer, n), 1)
        }
        Err(e) => println!(rt; "{e}"),
    }
}

// The lot of a recipe line struck out or written again, in the line's own buffer: the new used length.
fn lot_line(
    rt: &impl Print,
    buffer: &mut [u8],
    used: usize,
    words: &[u64],
    pool: &[u8],
) -> io::Result<usize> {
    match key::replace(&[5, 2, 7, 3, 1], buffer, used, 0, words, pool) {
        Ok(n) => {
            println!(rt; "  buffer {} used {n}", Hex(buffer))?;
            Ok(n)
        }
        Err(e) => {
            println!(rt; "{e}")?;
            Ok(used)
        }
    }
}

fn lot_struck_out(rt: &impl Print) -> io::Result<()> {
    let mut buffer = [0x53, 0x0a, 0, 0x49, 7];
    let n = lot_line(rt, &mut buffer, 5, &[0], b"")?;
    lot_line(rt, &mut buffer, n, &[3, 1], b"\x0a")?;
    Ok(())
}

// Recipe lines whose lot is blank, beside one whose lot is no bytes.
fn recipe_lines(rt: &impl Print) -> io::Result<()> {
    println!(rt; "no lot, and a lot of no bytes")?;
    pair(
        rt,
        &[5, 2, 7, 3, 1],
        &[5, 2, 0, 1, 7],
        b"",
        &[5, 2, 3, 0, 1, 7],
        b"",
    )?;
    println!(rt; "no lot, twice")?;
    pair(
        rt,
        &[5, 2, 7, 3, 1],
        &[5, 2, 0, 1, 7],
        b"",
        &[5, 2, 0, 1, 256],
        b"",
    )?;
    println!(rt; "lot 0A struck out and written again")?;
    lot_struck_out(rt)
}

fn main(rt: HostRuntime) -> io::Result<()> {
    let rt = Out(rt);
    println!(rt; "tanks 0A and 0A 00")?;
    pair(
        &rt,
        &[5, 2, 3, 1],
        &[5, 2, 3, 1, 1, 7],
        b"\x0a",
        &[5, 2, 3, 2, 1, 7],
        b"\x0a\x00",
    )?;
    println!(rt; "the same inside a record")?;
    pair(
        &rt,
        &[5, 2, 5, 2, 3, 1, 1],
        &[5, 2, 5, 2, 3, 1, 1, 7, 1, 1],
        b"\x0a",
        &[5, 2, 5, 2, 3, 2, 1, 7, 1, 1],
        b"\x0a\x00",
    )?;
    println!(rt; "255 and 256")?;
    pair(
        &rt,
        &[5, 2, 1, 1],
        &[5, 2, 1, 255, 1, 7],
        b"",
        &[5, 2, 1, 256, 1, 7],
        b"",
    )?;
    println!(rt; "-256 and -257")?;
    pair(
        &rt,
        &[5, 2, 1, 1],
        &[5, 2, 1, 0xffff_ffff_ffff_ff00, 1, 7],
        b"",
        &[5, 2, 1, 0xffff_ffff_ffff_feff, 1, 7],
        b"",
    )?;
    println!(rt; "tank 0A renamed 0A 00")?;
    renamed(&rt)?;
    recipe_lines(&rt)?;
    spans::spans(&rt)
}
