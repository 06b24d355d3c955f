// What a line of the list says of an answer, against what a call gave. A call with p arguments has them as fields 1 to p, then '=', and from field p + 2 on
// the refusal, the detail and the rest.
ghost use Rattle.lines.specs.Counts.{Counts};

use tuple::answers::{Length, Number};

// Buffers to be lent, holding EE.
pub fn lent() -> [u8; 72000] {
    [0xee; 72000]
}

pub fn lent_words() -> [u64; 8192] {
    [0xeeee_eeee_eeee_eeee; 8192]
}

// A room: how many of a buffer's bytes are lent.
pub fn room(line: &[u8], number: usize, buf: &[u8; 72000]) -> usize
    ensures { Counts result buf.now }
{
    lines::size(line, number).min(72000)
}

pub fn word_room(line: &[u8], number: usize, buf: &[u64; 8192]) -> usize
    ensures { Counts result buf.now }
{
    lines::size(line, number).min(8192)
}

// Does a buffer hold EE outside these places?
fn untouched(buf: &[u8; 72000], at: usize, end: usize) -> bool {
    buf.iter()
        .enumerate()
        .all(|(i, b)| *b == 0xee || (at <= i && i < end))
}

// Does a field list the bytes between two places of a buffer?
pub fn holds(line: &[u8], number: usize, at: usize, end: usize, buf: &[u8; 72000]) -> bool {
    lines::is_bytes(line, number, at, end, buf)
}

// And is the rest untouched?
pub fn written(line: &[u8], number: usize, at: usize, end: usize, buf: &[u8; 72000]) -> bool {
    holds(line, number, at, end, buf) & untouched(buf, at, end)
}

fn untouched_words(buf: &[u64; 8192], from: usize) -> bool {
    buf.iter().skip(from).all(|w| *w == 0xeeee_eeee_eeee_eeee)
}

pub fn written_words(line: &[u8], number: usize, n: usize, buf: &[u64; 8192]) -> bool {
    lines::is_words(line, number, n, buf) & untouched_words(buf, n)
}

pub fn is_length(line: &[u8], first: usize, a: Length) -> bool {
    lines::are_decimals(line, first, &[a.refusal as u64, a.detail, a.length])
}

pub fn is_number(line: &[u8], first: usize, a: Number) -> bool {
    lines::are_decimals(line, first, &[a.refusal as u64, a.detail, a.value, a.used])
}

// A length, which is the place behind what was written from another place on, and the bytes.
pub fn wrote(line: &[u8], first: usize, a: Length, at: usize, buf: &[u8; 72000]) -> bool {
    is_length(line, first, a)
        & written(
            line,
            std::num::wrapping_add_usize(first, 3),
            at,
            a.length as usize,
            buf,
        )
}

// A payload that was picked. The scratch buffer is touched only where it holds one, which is source 2.
pub fn held(
    line: &[u8],
    number: usize,
    source: u32,
    payload: &[u8],
    scratch: &[u8; 72000],
) -> bool {
    let used = if source == 2 { payload.len() } else { 0 };
    lines::is_bytes(line, number, 0, payload.len(), payload) & untouched(scratch, 0, used)
}
