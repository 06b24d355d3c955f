// Rows of a table: a type, the words and the pool of the first values, a beginning, and the two rooms, written as in the fixed list; a line with # is a heading.
// Behind a row stand the two ends, or the refusal. The lent buffers are full of EE: a refused call leaves all of it, an accepted one what lies behind the ends.
ghost use Rattle.lines.specs.Counts.{Counts};

use format::Refusal;
use key::Ends;
use show::{Hex, first};
use std::io;
use std::io::Write;

// Are the bytes from a place on still EE?
fn held(s: &[u8], from: usize) -> bool {
    s.iter().skip(from).all(|b| *b == 0xee)
}

fn held_both(
    rt: &impl Print,
    lower: &[u8],
    low: usize,
    upper: &[u8],
    high: usize,
) -> io::Result<()> {
    if held(lower, low) && held(upper, high) {
        print!(rt; ": kept, ")
    } else {
        print!(rt; ": changed, ")
    }
}

fn answer(
    rt: &impl Print,
    r: Result<Ends, Refusal>,
    lower: &[u8; 16],
    upper: &[u8; 16],
) -> io::Result<()> {
    match r {
        Ok(ends) => {
            held_both(rt, lower, ends.lower, upper, ends.upper)?;
            println!(rt;
                "{} to {}",
                Hex(first(lower, ends.lower)),
                Hex(first(upper, ends.upper))
            )
        }
        Err(e) => {
            held_both(rt, lower, 0, upper, 0)?;
            println!(rt; "{e}")
        }
    }
}

// A room of a row: how many of a buffer's bytes are lent.
fn room(line: &[u8], number: usize, buf: &[u8; 16]) -> usize
    ensures { Counts result buf.now }
{
    let all: &[u8] = buf;
    let n = lines::size(line, number);
    if n < all.len() { n } else { all.len() }
}

fn ask(
    rt: &impl Print,
    line: &[u8],
    ty: &[u32],
    words: &[u64],
    pool: &[u8],
    s: &[u8],
) -> io::Result<()> {
    let mut lower = [0xeeu8; 16];
    let mut upper = [0xeeu8; 16];
    let low = room(line, 4, &lower);
    let high = room(line, 5, &upper);
    let r = key::starting_with(ty, words, pool, s, &mut lower[..low], &mut upper[..high]);
    answer(rt, r, &lower, &upper)
}

fn with_type(rt: &impl Print, line: &[u8], ty: &[u32]) -> io::Result<()> {
    let mut words = [0; 8192];
    let mut pool = [0; 72000];
    let mut start = [0; 72000];
    let w = lines::words(line, 1, &mut words);
    let p = lines::bytes(line, 2, &mut pool);
    let n = lines::bytes(line, 3, &mut start);
    ask(rt, line, ty, &words[..w], &pool[..p], &start[..n])
}

fn row(rt: &impl Print, line: &[u8]) -> io::Result<()> {
    let mut ty = [0; format::MAX_TYPE_WORDS + 1];
    io::writer(rt).write_all(line)?;
    if line.is_empty() || line.starts_with(b"#") {
        return println!(rt; "");
    }
    let t = lines::types(line, 0, &mut ty);
    with_type(rt, line, &ty[..t])
}

pub fn rows(rt: &impl Print, table: &[u8]) -> io::Result<()> {
    for line in table.split_inclusive(|b| *b == b'\n') {
        row(rt, line.strip_suffix(b"\n").unwrap_or(line))?;
    }
    Ok(())
}
