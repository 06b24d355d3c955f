// Reading single fields and groups at a cursor.
ghost use Rattle.std.specs.Prelude.{◌≡◌, ◌+◌, ◌^◌, ◌<◌};
ghost use Rattle.format.specs.Refusals.{answered};
ghost use Rattle.format.specs.Cursor as cursor;
ghost use Rattle.scalar.specs.Answers.{got_int, got_part};
ghost use Rattle.cursor.specs.Steps.{cursor_of, taken_of, moved_of, part_answer, end_of, used_of, step_of, PartFits, int_moved, step_moved, part_moved, part_in, Hands};

use crate::{Cursor, depth_of, outer_depth};
use format::Refusal;
use scalar::{Place, Taken, groups};

// What is left of the key, the empty part where the place is past its end.
pub fn remaining<'a>(key: &'a [u8], c: Cursor) -> &'a [u8]
    ensures { result.now ≡ cursor.rest key.now (cursor_of c) }
{
    let at = c.at.min(key.len());
    &key[at..]
}

// The cursor so many bytes on, and at a depth.
fn on_to(c: Cursor, n: usize, depth: u32) -> Cursor
    requires { c.at + n < 2 ^ 64 }
    ensures { cursor_of result ≡ cursor.on_to (cursor_of c) n depth }
{
    Cursor {
        at: c.at + n,
        depth,
    }
}

// A number that was read at the cursor, and a depth behind it.
fn taken_int(
    c: Cursor,
    got: Result<Taken<u64>, Refusal>,
    depth: u32,
) -> Result<(u64, Cursor), Refusal>
    requires { c.at + used_of (got_int got) < 2 ^ 64 }
    ensures { taken_of result ≡ int_moved depth (cursor_of c) (got_int got) }
{
    let number = got?;
    Ok((number.value, on_to(c, number.used, depth)))
}

// Takes a signed integer as its word.
pub fn take_i64(key: &[u8], c: Cursor) -> Result<(u64, Cursor), Refusal>
    ensures { taken_of result ≡ cursor.take_i64 key.now (cursor_of c) }
{
    taken_int(c, scalar::get_i64(remaining(key, c)), depth_of(c))
}

// Takes an unsigned integer.
pub fn take_u64(key: &[u8], c: Cursor) -> Result<(u64, Cursor), Refusal>
    ensures { taken_of result ≡ cursor.take_u64 key.now (cursor_of c) }
{
    taken_int(c, scalar::get_u64(remaining(key, c)), depth_of(c))
}

// Takes a reference. No type is at hand, so only its sequence is checked.
pub fn take_fact_id(key: &[u8], c: Cursor) -> Result<(u64, Cursor), Refusal>
    ensures { taken_of result ≡ cursor.take_fact_id key.now (cursor_of c) }
{
    taken_int(c, scalar::get_fact_id(remaining(key, c)), depth_of(c))
}

// A payload that was read at the cursor: a place in the rest of the key is one in the key.
fn taken_part(c: Cursor, got: Result<Taken<Place>, Refusal>) -> Result<(Place, Cursor), Refusal>
    requires { PartFits c.at (got_part got) }
    ensures { part_answer result ≡ part_moved (cursor_of c) (got_part got) }
{
    let part = got?;
    let next = on_to(c, part.used, depth_of(c));
    match part.value {
        Place::InKey { at, len } => Ok((Place::InKey { at: c.at + at, len }, next)),
        Place::InScratch { len } => Ok((Place::InScratch { len }, next)),
    }
}

// Takes text: a part of the key where no escape occurs, otherwise of the scratch buffer, filled just before.
pub fn take_str(key: &[u8], c: Cursor, scratch: &mut [u8]) -> Result<(Place, Cursor), Refusal>
    ensures { Hands (cursor.take_str key.now (cursor_of c) scratch.old) result scratch.new }
{
    let got = scalar::get_str(remaining(key, c), scratch);
    taken_part(c, got)
}

// Takes bytes, likewise.
pub fn take_bytes(key: &[u8], c: Cursor, scratch: &mut [u8]) -> Result<(Place, Cursor), Refusal>
    ensures { Hands (cursor.take_bytes key.now (cursor_of c) scratch.old) result scratch.new }
{
    let got = scalar::get_bytes(remaining(key, c), scratch);
    taken_part(c, got)
}

// The part that holds the payload taken. A refused one is the empty part, and so is one that does not lie within its slice.
pub fn payload<'a>(
    key: &'a [u8],
    scratch: &'a [u8],
    taken: Result<(Place, Cursor), Refusal>,
) -> &'a [u8]
    ensures { result.now ≡ part_in key.now scratch.now (part_answer taken) }
{
    let got = taken.map(|(value, _)| Taken { value, used: 0 });
    scalar::payload(key, scratch, got)
}

// A step at the cursor that has no value of its own, and a depth behind it.
fn moved(c: Cursor, got: Result<usize, Refusal>, depth: u32) -> Result<Cursor, Refusal>
    requires { c.at + step_of (answered got) < 2 ^ 64 }
    ensures { moved_of result ≡ step_moved depth (cursor_of c) (answered got) }
{
    let n = got?;
    Ok(on_to(c, n, depth))
}

// Takes a null. Inside a group its escape is due.
pub fn take_null(key: &[u8], c: Cursor) -> Result<Cursor, Refusal>
    ensures { moved_of result ≡ cursor.take_null key.now (cursor_of c) }
{
    let depth = depth_of(c);
    moved(c, groups::null(remaining(key, c), 0 < depth), depth)
}

// Opens a record: its mark, then its depth.
pub fn open_record(key: &[u8], c: Cursor) -> Result<Cursor, Refusal>
    ensures { moved_of result ≡ cursor.open_record key.now (cursor_of c) }
{
    let depth = depth_of(c);
    moved(c, groups::open_record(remaining(key, c), depth), depth + 1)
}

// Opens a union: its mark, its discriminant, then its depth. The discriminant may be any 64-bit number.
pub fn open_union(key: &[u8], c: Cursor) -> Result<(u64, Cursor), Refusal>
    ensures { taken_of result ≡ cursor.open_union key.now (cursor_of c) }
{
    let depth = depth_of(c);
    taken_int(c, groups::open_union(remaining(key, c), depth), depth + 1)
}

// Closes the open group. At depth 0 none is open, whatever byte stands there.
pub fn close(key: &[u8], c: Cursor) -> Result<Cursor, Refusal>
    ensures { moved_of result ≡ cursor.close key.now (cursor_of c) }
{
    let depth = outer_depth(c)?;
    moved(c, groups::close(remaining(key, c)), depth)
}

// Does the open group end here? At depth 0 none is open.
pub fn is_record_end(key: &[u8], c: Cursor) -> Result<bool, Refusal>
    ensures { end_of result ≡ cursor.is_record_end key.now (cursor_of c) }
{
    if c.depth == 0 {
        return Ok(false);
    }
    let rest = remaining(key, c);
    if rest.is_empty() {
        return Err(Refusal::UnexpectedEof);
    }
    Ok(groups::ends_here(rest))
}
