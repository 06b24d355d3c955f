// Single fields put at a place of a lent buffer.
ghost use Rattle.std.specs.Prelude.{◌≡◌, ◌+◌, ◌^◌, ◌<◌, ◌∷◌};
ghost use Rattle.format.specs.Refusals.{answered, Leaves};
ghost use Rattle.format.specs.Scalar.{escaped};
ghost use Rattle.format.specs.Fields.{put_at, put_i64_call, put_u64_call, put_str_call, put_bytes_call, put_fact_id_call};
ghost use Rattle.scalar.specs.Answers.{room_for};

use crate::{ints, refs, runs};
use format::Refusal;

// The place behind head and n bytes more from a place on, in a buffer of so many bytes. They are two numbers since their sum may not fit.
pub fn room(len: usize, at: usize, head: usize, n: usize) -> Result<usize, Refusal>
    requires { len + head < 2 ^ 64 }
    ensures { answered result ≡ room_for len at (head + n) }
{
    if len < at {
        return Err(Refusal::NoRoom(at));
    }
    let start = at + head;
    if len < start || len - start < n {
        return Err(Refusal::NoRoom(start.saturating_add(n)));
    }
    Ok(start + n)
}

// Puts an unsigned integer.
pub fn put_u64(buf: &mut [u8], at: usize, n: u64) -> Result<usize, Refusal>
    ensures { Leaves (put_u64_call buf.old at n) result buf.new }
{
    room(buf.len(), at, 0, ints::uint_len(n))?;
    Ok(ints::write_u64(buf, at, n))
}

// Puts a signed integer, given as its word. Sign and width are taken once: by `int_len` and `write_i64` a short one took a quarter longer.
pub fn put_i64(buf: &mut [u8], at: usize, w: u64) -> Result<usize, Refusal>
    ensures { Leaves (put_i64_call buf.old at w) result buf.new }
{
    if w < ints::NEGATIVE {
        return put_u64(buf, at, w);
    }
    let mag = ints::magnitude_of(w);
    let width = ints::int_width(mag);
    room(buf.len(), at, 1, width)?;
    Ok(ints::write_marked(buf, at, format::MARK_INT_ZERO - width as u8, width, !mag))
}

// Puts a reference.
pub fn put_fact_id(buf: &mut [u8], at: usize, raw: u64) -> Result<usize, Refusal>
    ensures { Leaves (put_fact_id_call buf.old at raw) result buf.new }
{
    room(buf.len(), at, 0, format::FACT_REF_FIELD_LEN)?;
    Ok(refs::write_ref(buf, at, raw))
}

// Puts a payload as a run behind a mark.
fn put_run(buf: &mut [u8], at: usize, mark: u8, payload: &[u8]) -> Result<usize, Refusal>
    ensures { Leaves (put_at buf.old at (mark ∷ escaped payload.now)) result buf.new }
{
    room(buf.len(), at, 1, runs::escaped_len(payload))?;
    buf[at] = mark;
    let run = runs::write_escaped(buf, at + 1, payload);
    Ok(run.end)
}

// Puts bytes.
pub fn put_bytes(buf: &mut [u8], at: usize, payload: &[u8]) -> Result<usize, Refusal>
    ensures { Leaves (put_bytes_call buf.old at payload.now) result buf.new }
{
    put_run(buf, at, format::MARK_BYTES, payload)
}

// Puts text. Bytes that are not UTF-8 are refused before any room is asked for.
pub fn put_str(buf: &mut [u8], at: usize, text: &[u8]) -> Result<usize, Refusal>
    ensures { Leaves (put_str_call buf.old at text.now) result buf.new }
{
    if text::valid(text) {
        put_run(buf, at, format::MARK_STRING, text)
    } else {
        Err(Refusal::BadString)
    }
}
