// Spans on the next field: batches from one number to another of tank 0A, and of tank 0A 00; tanks from one tag to another; batches with a field behind them; and
// batch numbers that may be blank. For each span it prints the two ends, and by tank the batches whose keys lie between them.
use crate::keys::{between, key};
use show::{Hex, first};
use std::io;

// A value: the words of its sheet and its bytes.
#[derive(Clone, Copy)]
struct Sheet<'a> {
    words: &'a [u64],
    pool: &'a [u8],
}

// A value with no bytes of its own.
fn plain<'a>(words: &'a [u64]) -> Sheet<'a> {
    Sheet { words, pool: b"" }
}

// The span of keys from a lowest to a highest value behind some first ones. Its ends are handed on, a refusal is printed.
fn span<F: FnOnce(&[u8], &[u8]) -> io::Result<()>>(
    rt: &impl Print,
    ty: &[u32],
    values: Sheet,
    lowest: Sheet,
    highest: Sheet,
    take: F,
) -> io::Result<()>
    requires { F.IsAlwaysCallable take }
{
    let mut lower = [0u8; 32];
    let mut upper = [0u8; 32];
    print!(rt; "  span   ")?;
    match key::span(
        ty,
        values.words,
        values.pool,
        lowest.words,
        lowest.pool,
        highest.words,
        highest.pool,
        &mut lower,
        &mut upper,
    ) {
        Ok(ends) => take(first(&lower, ends.lower), first(&upper, ends.upper)),
        Err(e) => println!(rt; "{e}"),
    }
}

// Does the key with these words, and a tag of its own, lie between the ends?
fn lies_in(
    rt: &impl Print,
    ty: &[u32],
    words: &[u64],
    tag: &[u8],
    lower: &[u8],
    upper: &[u8],
) -> io::Result<bool> {
    let mut out = [0u8; 32];
    let batch = key(rt, ty, words, tag, &mut out)?;
    Ok(between(batch, lower, upper))
}

// Of the batches -1, 0 and up to 256, most about 40 and 60, those whose keys lie between the ends.
fn batches_in(
    rt: &impl Print,
    ty: &[u32],
    tag: &[u8],
    lower: &[u8],
    upper: &[u8],
) -> io::Result<()> {
    for batch in [-1i64, 0, 39, 40, 41, 50, 59, 60, 61, 255, 256] {
        let words = [5, 2, 3, tag.len() as u64, 1, batch.cast_unsigned()];
        if lies_in(rt, ty, &words, tag, lower, upper)? {
            print!(rt; " {batch}")?;
        }
    }
    println!(rt; "")
}

fn tank_line(rt: &impl Print, tag: &[u8], lower: &[u8], upper: &[u8]) -> io::Result<()> {
    print!(rt; "    tank {}:", Hex(tag))?;
    batches_in(rt, &[5, 2, 3, 1], tag, lower, upper)
}

// The same of tanks whose batches may have no number.
fn blank_line(rt: &impl Print, tag: &[u8], lower: &[u8], upper: &[u8]) -> io::Result<()> {
    let words = [5, 2, 3, tag.len() as u64, 0];
    print!(rt; "    tank {}:", Hex(tag))?;
    if lies_in(rt, &[5, 2, 3, 7, 1], &words, tag, lower, upper)? {
        print!(rt; " blank")?;
    }
    batches_in(rt, &[5, 2, 3, 7, 1], tag, lower, upper)
}

fn ends_line(rt: &impl Print, lower: &[u8], upper: &[u8]) -> io::Result<()> {
    println!(rt; "{} to {}", Hex(lower), Hex(upper))
}

// What the ends take in of the two tanks and of those around them.
fn tanks_in(rt: &impl Print, lower: &[u8], upper: &[u8]) -> io::Result<()> {
    ends_line(rt, lower, upper)?;
    tank_line(rt, b"\x09", lower, upper)?;
    tank_line(rt, b"\x0a", lower, upper)?;
    tank_line(rt, b"\x0a\x00", lower, upper)?;
    tank_line(rt, b"\x0a\x00\x00", lower, upper)?;
    tank_line(rt, b"\x0a\x01", lower, upper)?;
    tank_line(rt, b"\x0b", lower, upper)
}

// Batches from the lowest number to the highest of one tank: k is 1.
fn batches(rt: &impl Print, tag: &[u8], lowest: u64, highest: u64) -> io::Result<()> {
    let tank = Sheet {
        words: &[5, 1, 3, tag.len() as u64],
        pool: tag,
    };
    span(
        rt,
        &[5, 2, 3, 1],
        tank,
        plain(&[1, lowest]),
        plain(&[1, highest]),
        |lower, upper| tanks_in(rt, lower, upper),
    )
}

// Both tanks begin with the same bytes, and each span holds the batches of its own.
fn batches_of_both(rt: &impl Print) -> io::Result<()> {
    println!(rt; "batches 40 to 60 of tank 0A")?;
    batches(rt, b"\x0a", 40, 60)?;
    println!(rt; "batches 40 to 60 of tank 0A 00")?;
    batches(rt, b"\x0a\x00", 40, 60)?;
    println!(rt; "batches -1 to 0 of tank 0A")?;
    batches(rt, b"\x0a", 0xffff_ffff_ffff_ffff, 0)?;
    println!(rt; "batches 60 to 40 of tank 0A")?;
    batches(rt, b"\x0a", 60, 40)
}

// One batch: the span's ends are those that the bounds call gives for the first two fields of its key.
fn one_batch(rt: &impl Print) -> io::Result<()> {
    let mut lower = [0u8; 32];
    let mut upper = [0u8; 32];
    println!(rt; "batches 40 to 40 of tank 0A, and the bounds of batch 40")?;
    batches(rt, b"\x0a", 40, 40)?;
    print!(rt; "  bounds ")?;
    let batch = b"\x53\x0a\x00\x49\x28";
    match key::bounds(&[5, 2, 3, 1], batch, 2, &mut lower, &mut upper) {
        Ok(ends) => tanks_in(rt, first(&lower, ends.lower), first(&upper, ends.upper)),
        Err(e) => println!(rt; "{e}"),
    }
}

// strinc of the highest's bytes as the upper end.
fn strinc_line(rt: &impl Print, lower: &[u8], highest: &[u8]) -> io::Result<()> {
    let mut upper = [0u8; 32];
    print!(rt; "  strinc ")?;
    match ends::strinc(highest, &mut upper) {
        Ok(n) => tanks_in(rt, lower, first(&upper, n)),
        Err(e) => println!(rt; "{e}"),
    }
}

// Tanks from one tag to another, with all their batches: k is 0. Here strinc takes in tank 0A 00.
fn tanks_to(rt: &impl Print) -> io::Result<()> {
    let lowest = Sheet {
        words: &[3, 1],
        pool: b"\x09",
    };
    let highest = Sheet {
        words: &[3, 1],
        pool: b"\x0a",
    };
    println!(rt; "tanks 09 to 0A")?;
    span(
        rt,
        &[5, 2, 3, 1],
        plain(&[5, 0]),
        lowest,
        highest,
        |lower, upper| {
            tanks_in(rt, lower, upper)?;
            strinc_line(rt, lower, b"\x53\x0a\x00")
        },
    )
}

// A dose into a batch of tank 0A: a key with a field behind the one that the span is on.
fn dose_line(rt: &impl Print, batch: u64, dose: u64, lower: &[u8], upper: &[u8]) -> io::Result<()> {
    let mut out = [0u8; 32];
    let words = [5, 3, 3, 1, 1, batch, 4, dose];
    let dose = key(rt, &[5, 3, 3, 1, 4, 7], &words, b"\x0a", &mut out)?;
    let lies = if between(dose, lower, upper) {
        "in"
    } else {
        "out"
    };
    println!(rt; "    {} {lies}", Hex(dose))
}

fn doses_in(rt: &impl Print, lower: &[u8], upper: &[u8]) -> io::Result<()> {
    ends_line(rt, lower, upper)?;
    dose_line(rt, 39, 0x7ff_ffff_ffff, lower, upper)?;
    dose_line(rt, 40, 0x700_0000_0001, lower, upper)?;
    dose_line(rt, 60, 0x7ff_ffff_ffff, lower, upper)?;
    dose_line(rt, 61, 0x700_0000_0001, lower, upper)
}

fn doses(rt: &impl Print) -> io::Result<()> {
    let tank = Sheet {
        words: &[5, 1, 3, 1],
        pool: b"\x0a",
    };
    println!(rt; "doses of batches 40 to 60 of tank 0A")?;
    span(
        rt,
        &[5, 3, 3, 1, 4, 7],
        tank,
        plain(&[1, 40]),
        plain(&[1, 60]),
        |lower, upper| doses_in(rt, lower, upper),
    )
}

fn blanks_in(rt: &impl Print, lower: &[u8], upper: &[u8]) -> io::Result<()> {
    ends_line(rt, lower, upper)?;
    blank_line(rt, b"\x0a", lower, upper)?;
    blank_line(rt, b"\x0a\x00", lower, upper)
}

// Batches of tank 0A whose number may be blank, which comes before every number.
fn numbered(rt: &impl Print, lowest: &[u64], highest: &[u64]) -> io::Result<()> {
    let tank = Sheet {
        words: &[5, 1, 3, 1],
        pool: b"\x0a",
    };
    span(
        rt,
        &[5, 2, 3, 7, 1],
        tank,
        plain(lowest),
        plain(highest),
        |lower, upper| blanks_in(rt, lower, upper),
    )
}

fn blank_numbers(rt: &impl Print) -> io::Result<()> {
    println!(rt; "no number to batch 60 of tank 0A")?;
    numbered(rt, &[0], &[1, 60])?;
    println!(rt; "no number to no number")?;
    numbered(rt, &[0], &[0])?;
    println!(rt; "batch 40 to no number")?;
    numbered(rt, &[1, 40], &[0])
}

pub fn spans(rt: &impl Print) -> io::Result<()> {
    batches_of_both(rt)?;
    one_batch(rt)?;
    tanks_to(rt)?;
    doses(rt)?;
    blank_numbers(rt)
}
