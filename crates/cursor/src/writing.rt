// Writing single fields and groups at a cursor. NoRoom counts from the buffer's start, and comes last.
ghost use Rattle.std.specs.Prelude.{◌≡◌};
ghost use Rattle.format.specs.Refusals.{answered, Leaves};
ghost use Rattle.format.specs.Fields.{put_at};
ghost use Rattle.format.specs.Cursor as cursor;
ghost use Rattle.cursor.specs.Steps.{cursor_of, wrote_of, put_moved, StepLeaves};

use crate::{Cursor, depth_of, inner_depth, outer_depth};
use format::Refusal;
use scalar::UnionTag;

// The cursor behind what was put, at a depth.
fn wrote(put: Result<usize, Refusal>, depth: u32) -> Result<Cursor, Refusal>
    ensures { wrote_of result ≡ put_moved depth (answered put) }
{
    put.map(|at| Cursor { at, depth })
}

// Puts bytes as they stand.
fn put_plain(buf: &mut [u8], at: usize, bytes: &[u8]) -> Result<usize, Refusal>
    ensures { Leaves (put_at buf.old at bytes.now) result buf.new }
{
    let end = scalar::puts::room(buf.len(), at, 0, bytes.len())?;
    buf[at..end].copy_from_slice(bytes);
    Ok(end)
}

// Puts a null. Inside a group 00 alone would be its end, so the escape follows.
pub fn put_null(buf: &mut [u8], c: Cursor) -> Result<Cursor, Refusal>
    ensures { StepLeaves (cursor.put_null buf.old (cursor_of c)) result buf.new }
{
    let depth = depth_of(c);
    let escaped = [format::MARK_NULL, format::MARK_ESCAPE];
    let n = if depth == 0 { 1 } else { 2 };
    wrote(put_plain(buf, c.at, &escaped[..n]), depth)
}

// Puts a signed integer, given as its word.
pub fn put_i64(buf: &mut [u8], c: Cursor, w: u64) -> Result<Cursor, Refusal>
    ensures { StepLeaves (cursor.put_i64 buf.old (cursor_of c) w) result buf.new }
{
    wrote(scalar::put_i64(buf, c.at, w), depth_of(c))
}

// Puts an unsigned integer.
pub fn put_u64(buf: &mut [u8], c: Cursor, n: u64) -> Result<Cursor, Refusal>
    ensures { StepLeaves (cursor.put_u64 buf.old (cursor_of c) n) result buf.new }
{
    wrote(scalar::put_u64(buf, c.at, n), depth_of(c))
}

// Puts text. Bytes that are not UTF-8 are refused.
pub fn put_str(buf: &mut [u8], c: Cursor, text: &[u8]) -> Result<Cursor, Refusal>
    ensures { StepLeaves (cursor.put_str buf.old (cursor_of c) text.now) result buf.new }
{
    wrote(scalar::put_str(buf, c.at, text), depth_of(c))
}

// Puts bytes.
pub fn put_bytes(buf: &mut [u8], c: Cursor, payload: &[u8]) -> Result<Cursor, Refusal>
    ensures { StepLeaves (cursor.put_bytes buf.old (cursor_of c) payload.now) result buf.new }
{
    wrote(scalar::put_bytes(buf, c.at, payload), depth_of(c))
}

// Puts a reference, unchecked.
pub fn put_fact_id(buf: &mut [u8], c: Cursor, raw: u64) -> Result<Cursor, Refusal>
    ensures { StepLeaves (cursor.put_fact_id buf.old (cursor_of c) raw) result buf.new }
{
    wrote(scalar::put_fact_id(buf, c.at, raw), depth_of(c))
}

// Opens a record.
pub fn put_record(buf: &mut [u8], c: Cursor) -> Result<Cursor, Refusal>
    ensures { StepLeaves (cursor.put_record buf.old (cursor_of c)) result buf.new }
{
    let depth = inner_depth(c)?;
    wrote(put_plain(buf, c.at, &[format::MARK_RECORD]), depth)
}

// Opens a union: its mark and its discriminant.
pub fn put_union(buf: &mut [u8], c: Cursor, disc: u32) -> Result<Cursor, Refusal>
    ensures { StepLeaves (cursor.put_union buf.old (cursor_of c) disc) result buf.new }
{
    let depth = inner_depth(c)?;
    let tag = UnionTag::new(disc);
    wrote(put_plain(buf, c.at, &tag.bytes[..tag.len]), depth)
}

// Ends the open group. At depth 0 none is open, whatever room there is.
pub fn put_end(buf: &mut [u8], c: Cursor) -> Result<Cursor, Refusal>
    ensures { StepLeaves (cursor.put_end buf.old (cursor_of c)) result buf.new }
{
    let depth = outer_depth(c)?;
    wrote(put_plain(buf, c.at, &[format::MARK_TERM]), depth)
}
