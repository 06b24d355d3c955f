// Question three of the apprentice exam: two batches and one tank; which batch may be dosed? Answered from the keys alone: a batch belongs to the tank
// where its key lies between the tank's two ends. Then the same for tags that end in a zero.
#![tactic(auto)]

use show::{Hex, Out, first};
use std::io;

// The answer for one batch, with its reason.
fn verdict(rt: &impl Print, batch: &[u8], lower: &[u8], upper: &[u8]) -> io::Result<()> {
    print!(rt; "  batch {}", Hex(batch))?;
    if blocks::compare(batch, lower).is_lt() {
        println!(rt;
            " may not be dosed: its key is below the tank's lower end {}",
            Hex(lower)
        )
    } else if blocks::compare(batch, upper).is_lt() {
        println!(rt;
            " may be dosed: its key lies from {} up to {}",
            Hex(lower),
            Hex(upper)
        )
    } else {
        println!(rt;
            " may not be dosed: its key is not below the tank's upper end {}",
            Hex(upper)
        )
    }
}

// Both batches against the ends that the bounds call gives for the tank's own key and its first field, the tag.
fn ask(rt: &impl Print, tank: &[u8], batches: [&[u8]; 2]) -> io::Result<()> {
    let mut lower = [0u8; 32];
    let mut upper = [0u8; 32];
    match key::bounds(&[5, 2, 3, 1], tank, 1, &mut lower, &mut upper) {
        Err(e) => println!(rt; "{e}"),
        Ok(ends) => {
            for batch in batches {
                verdict(
                    rt,
                    batch,
                    first(&lower, ends.lower),
                    first(&upper, ends.upper),
                )?;
            }
            Ok(())
        }
    }
}

// A key's bytes in its buffer, none of a refused one, which is printed.
fn key<'a>(
    rt: &impl Print,
    tag: &[u8],
    number: u64,
    out: &'a mut [u8; 32],
) -> io::Result<&'a [u8]> {
    let words = [5, 2, 3, tag.len() as u64, 1, number];
    let r = encode::encode_key(&[5, 2, 3, 1], &words, tag, out);
    show::wrote(rt, r.map(|done| done.length), out)
}

// A tank by its tag, and two batches by theirs, with the numbers 7 and 8.
fn question(rt: &impl Print, tank: &[u8], first: &[u8], second: &[u8]) -> io::Result<()> {
    let mut own = [0u8; 32];
    let mut a = [0u8; 32];
    let mut b = [0u8; 32];
    let own = key(rt, tank, 0, &mut own)?;
    let a = key(rt, first, 7, &mut a)?;
    let b = key(rt, second, 8, &mut b)?;
    println!(rt; "tank {}", Hex(tank))?;
    ask(rt, own, [a, b])
}

fn main(rt: HostRuntime) -> io::Result<()> {
    let rt = Out(rt);
    question(&rt, b"\x0a", b"\x0a", b"\x0b")?;
    question(&rt, b"\x0a", b"\x0a", b"\x0a\x00")?;
    question(&rt, b"\x0a\x00", b"\x0a", b"\x0a\x00")?;
    question(&rt, b"\x0a\x00", b"\x0a\x00\x00", b"\x0a\x00")
}
