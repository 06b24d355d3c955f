// Replacement: a new value in one field of a key, in the key's own buffer.
ghost use Rattle.std.specs.Prelude.{◌≤◌, length};
ghost use Rattle.format.specs.Calls.{replace_call};
ghost use Rattle.format.specs.Refusals.{Leaves};
ghost use Rattle.read.specs.Walk.{TypeAt};
ghost use Rattle.key.specs.Keys.{Puts, Splices, ValueStands};

use crate::{passing, records};
use format::Refusal;

// Moves the bytes behind a part and writes the value of n bytes in its place.
fn splice(
    words: &[u64],
    pool: &[u8],
    buffer: &mut [u8],
    used: usize,
    start: usize,
    end: usize,
    n: usize,
)
    requires { Puts buffer.old used start end n }
    ensures { Splices buffer.old used start end n words.now pool.now buffer.new }
{
    blocks::move_within(buffer, end, start + n, used - end);
    write::put_value(words, pool, buffer, 0, 0, start, 0);
}

// The new value in the place of a field that was found, whose type need not be passed once more. Its answer is the new used length.
fn put_field(
    ty: &[u32],
    at: usize,
    buffer: &mut [u8],
    used: usize,
    start: usize,
    end: usize,
    words: &[u64],
    pool: &[u8],
) -> Result<usize, Refusal>
    requires typed { TypeAt ty.now at }
    requires inside { (start ≤ end) × (end ≤ used) × (used ≤ length buffer.old) }
    ensures { ValueStands ty.now at buffer.old used start end words.now pool.now result buffer.new }
{
    if !sheet::admit_value(words, pool) {
        return Err(Refusal::BadValue);
    }
    let fitted = fit::fit_value(ty, words, pool, at, 0, 0, 0, false)?;
    let len = start + fitted.len + (used - end);
    if format::MAX_KEY_BYTES < len {
        return Err(Refusal::KeyTooLong(len));
    }
    if buffer.len() < len {
        return Err(Refusal::NoRoom(len));
    }
    splice(words, pool, buffer, used, start, end, fitted.len);
    Ok(len)
}

// Replaces a field of the key in the buffer's first bytes; what stood behind the field follows it. The new used length, or what refuses it.
pub fn replace(
    ty: &[u32],
    buffer: &mut [u8],
    used: usize,
    field: usize,
    words: &[u64],
    pool: &[u8],
) -> Result<usize, Refusal>
    ensures { Leaves (replace_call ty.now buffer.old used field words.now pool.now) result buffer.new }
{
    let n = records::field_count(ty)?;
    if (n as usize) <= field {
        return Err(Refusal::NoField);
    }
    if buffer.len() < used {
        return Err(Refusal::NoRoom(used));
    }
    let old = passing::find_field(ty, n, &buffer[..used], field as u32)?;
    put_field(ty, old.at, buffer, used, old.start, old.end, words, pool)
}
