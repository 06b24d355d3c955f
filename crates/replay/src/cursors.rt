// take_null, take_i64, take_u64, take_fact_id, open_record, open_union, close: bytes place depth = refusal detail value place depth.
// is_record_end: bytes place depth = refusal detail ends 0. take_str, take_bytes: bytes place depth room-of-scratch = refusal detail source place-of-the-part
// length place depth payload. put_null, put_record, put_end: room place depth; put_union: room place depth discriminant = refusal detail 0 place depth bytes.
use crate::answers;
use cursor::Cursor;
use format::Refusal;
use scalar::Place;
use tuple::cursors;
use tuple::steps::{CursorStep, PartStep};

fn stepped(line: &[u8], first: usize, s: CursorStep) -> bool {
    lines::are_decimals(
        line,
        first,
        &[s.refusal as u64, s.detail, s.value, s.at, s.depth],
    )
}

pub fn step(line: &[u8], call: &[u8], bytes: &[u8]) -> bool {
    let at = lines::size(line, 2);
    let depth = lines::size(line, 3);
    let s = match call {
        b"take_null" => cursors::tuple_take_null(bytes, at, depth),
        b"take_i64" => cursors::tuple_take_i64(bytes, at, depth),
        b"take_u64" => cursors::tuple_take_u64(bytes, at, depth),
        b"take_fact_id" => cursors::tuple_take_fact_id(bytes, at, depth),
        b"open_record" => cursors::tuple_open_record(bytes, at, depth),
        b"open_union" => cursors::tuple_open_union(bytes, at, depth),
        _ => cursors::tuple_close(bytes, at, depth),
    };
    stepped(line, 5, s)
}

pub fn record_end(line: &[u8], bytes: &[u8]) -> bool {
    let a = cursors::tuple_is_record_end(bytes, lines::size(line, 2), lines::size(line, 3));
    answers::is_number(line, 5, a)
}

// Where the payload is, for the picker, to which all refusals are alike.
fn part(s: PartStep) -> Result<(Place, Cursor), Refusal> {
    let c = Cursor {
        at: s.at as usize,
        depth: narrow(s.depth as usize),
    };
    let len = s.len as usize;
    match s.source {
        1 => {
            let at = s.part as usize;
            Ok((Place::InKey { at, len }, c))
        }
        2 => Ok((Place::InScratch { len }, c)),
        _ => Err(Refusal::UnexpectedEof),
    }
}

fn taken<'a>(line: &[u8], s: PartStep, bytes: &'a [u8], scratch: &'a [u8; 72000]) -> bool {
    lines::are_decimals(
        line,
        6,
        &[
            s.refusal as u64,
            s.detail,
            s.source as u64,
            s.part,
            s.len,
            s.at,
            s.depth,
        ],
    ) & answers::held(
        line,
        13,
        s.source,
        cursor::payload(bytes, scratch, part(s)),
        scratch,
    )
}

pub fn take(line: &[u8], text: bool, bytes: &[u8]) -> bool {
    let mut scratch = answers::lent();
    let n = answers::room(line, 4, &scratch);
    let at = lines::size(line, 2);
    let depth = lines::size(line, 3);
    let s = if text {
        cursors::tuple_take_str(bytes, at, depth, &mut scratch[..n])
    } else {
        cursors::tuple_take_bytes(bytes, at, depth, &mut scratch[..n])
    };
    taken(line, s, bytes, &scratch)
}

// What a step wrote stands between its places. A refused one leaves its place, so nothing does.
fn wrote(line: &[u8], first: usize, s: CursorStep, out: &[u8; 72000]) -> bool {
    stepped(line, first, s)
        & answers::written(
            line,
            std::num::wrapping_add_usize(first, 5),
            lines::size(line, 2),
            s.at as usize,
            out,
        )
}

pub fn put(line: &[u8], call: &[u8]) -> bool {
    let mut out = answers::lent();
    let n = answers::room(line, 1, &out);
    let at = lines::size(line, 2);
    let depth = lines::size(line, 3);
    let s = match call {
        b"put_null" => cursors::tuple_put_null(&mut out[..n], at, depth),
        b"put_record" => cursors::tuple_put_record(&mut out[..n], at, depth),
        _ => cursors::tuple_put_end(&mut out[..n], at, depth),
    };
    wrote(line, 5, s, &out)
}

// The list's discriminants are below 2^32, and a depth is; another disagrees with its line.
fn narrow(n: usize) -> u32 {
    u32::try_from(n).unwrap_or(0)
}

pub fn put_union(line: &[u8]) -> bool {
    let mut out = answers::lent();
    let n = answers::room(line, 1, &out);
    let disc = narrow(lines::size(line, 4));
    let s = cursors::tuple_put_union(
        &mut out[..n],
        lines::size(line, 2),
        lines::size(line, 3),
        disc,
    );
    wrote(line, 6, s, &out)
}
