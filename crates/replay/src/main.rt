// Replays the fixed list of the original's answers (tools/README.md has its format) over the proved calls, and prints how many lines of each call agreed
// and every line that did not.
#![tactic(auto)]

mod answers;
mod cursors;
mod fields;
mod keys;
mod reader;
mod sheets;

ghost use Rattle.std.specs.Prelude.{◌≡◌};
ghost use Rattle.lines.specs.Counts.{Counts};

use std::io::Write;

// The names of the calls.
const CALLS: [&[u8]; 38] = [
    b"encode_typed",
    b"encode_key",
    b"decode_typed",
    b"decode_key",
    b"check_key",
    b"skip",
    b"compare",
    b"strinc",
    b"above_field",
    b"bounds",
    b"replace",
    b"get_i64",
    b"get_u64",
    b"get_str",
    b"get_bytes",
    b"put_i64",
    b"put_u64",
    b"put_fact_id",
    b"put_str",
    b"put_bytes",
    b"take_null",
    b"take_i64",
    b"take_u64",
    b"take_fact_id",
    b"open_record",
    b"open_union",
    b"close",
    b"is_record_end",
    b"take_str",
    b"take_bytes",
    b"put_null",
    b"put_record",
    b"put_end",
    b"put_union",
    b"chars_next",
    b"chars",
    b"names",
    b"span",
];

// The calls whose first arguments are a type and bytes.
fn of_key(call: &[u8], line: &[u8], ty: &[u32]) -> bool {
    let mut bytes = [0; 72000];
    let b = lines::bytes(line, 2, &mut bytes);
    match call {
        b"decode_typed" => sheets::decode(line, false, ty, &bytes[..b]),
        b"decode_key" => sheets::decode(line, true, ty, &bytes[..b]),
        b"check_key" => sheets::check(line, ty, &bytes[..b]),
        b"bounds" => keys::bounds(line, ty, &bytes[..b]),
        _ => false,
    }
}

// The calls whose first argument is a type.
fn of_type(call: &[u8], line: &[u8]) -> bool {
    let mut ty = [0; format::MAX_TYPE_WORDS + 1];
    let t = lines::types(line, 1, &mut ty);
    match call {
        b"encode_typed" => sheets::encode(line, false, &ty[..t]),
        b"encode_key" => sheets::encode(line, true, &ty[..t]),
        b"replace" => keys::replace(line, &ty[..t]),
        b"span" => keys::span(line, &ty[..t]),
        _ => of_key(call, line, &ty[..t]),
    }
}

// The calls whose first argument is bytes.
fn of_bytes(call: &[u8], line: &[u8]) -> bool {
    let mut bytes = [0; 72000];
    let b = lines::bytes(line, 1, &mut bytes);
    let bytes = &bytes[..b];
    match call {
        b"skip" => keys::skip(line, bytes),
        b"strinc" => keys::end(line, false, bytes),
        b"above_field" => keys::end(line, true, bytes),
        b"get_i64" => fields::integer(line, true, bytes),
        b"get_u64" => fields::integer(line, false, bytes),
        b"get_str" => fields::payload(line, true, bytes),
        b"get_bytes" => fields::payload(line, false, bytes),
        b"is_record_end" => cursors::record_end(line, bytes),
        b"take_str" => cursors::take(line, true, bytes),
        b"take_bytes" => cursors::take(line, false, bytes),
        b"chars_next" => reader::next(line, bytes),
        b"chars" => reader::chars(line, bytes),
        b"names" => reader::names(line, bytes),
        _ => cursors::step(line, call, bytes),
    }
}

fn agrees(call: &[u8], line: &[u8]) -> bool {
    match call {
        b"compare" => keys::compare(line),
        b"encode_typed"
        | b"encode_key"
        | b"decode_typed"
        | b"decode_key"
        | b"check_key"
        | b"bounds"
        | b"replace"
        | b"span" => of_type(call, line),
        b"put_i64" | b"put_u64" | b"put_fact_id" | b"put_str" | b"put_bytes" => {
            fields::put(line, call)
        }
        b"put_null" | b"put_record" | b"put_end" => cursors::put(line, call),
        b"put_union" => cursors::put_union(line),
        _ => of_bytes(call, line),
    }
}

// How many lines of each call agree; a line that does not, or of no call, is printed.
fn counts(rt: &impl Print, text: &[u8]) -> std::io::Result<[u64; 38]> {
    let mut counts = [0u64; 38];
    for row in text.split_inclusive(|b| *b == b'\n') {
        let line = row.strip_suffix(b"\n").unwrap_or(row);
        let call = lines::field(line, 0);
        match CALLS.iter().position(|name| *name == call) {
            Some(i) if agrees(call, line) => counts[i] = counts[i].saturating_add(1),
            _ => {
                print!(rt; "differs: ")?;
                std::io::writer(rt).write_all(line)?;
                println!(rt; "")?;
            }
        }
    }
    Ok(counts)
}

fn totals(rt: &impl Print, counts: [u64; 38]) -> std::io::Result<()> {
    for (call, count) in CALLS.iter().zip(&counts) {
        std::io::writer(rt).write_all(call)?;
        println!(rt; " {count}")?;
    }
    Ok(())
}

// Reads the list, and counts its bytes.
fn read(room: &mut [u8; 1048576]) -> usize
    ensures { Counts result room.new }
{
    io::read_full(0, room)
}

fn main(rt: HostRuntime) -> std::io::Result<()> {
    let rt = show::Out(rt);
    let mut room = [0; 1048576];
    let n = read(&mut room);
    let counts = counts(&rt, &room[..n])?;
    totals(&rt, counts)
}
