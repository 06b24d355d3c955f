// The steps of groups over what is left of a key: a record or a union opens, a group ends, a null. Each says how many bytes it took.
ghost use Rattle.std.specs.Prelude.{◌≡◌};
ghost use Rattle.format.specs.Answer.{if};
ghost use Rattle.format.specs.Refusals.{answered};
ghost use Rattle.format.specs.Read.{ends_here};
ghost use Rattle.format.specs.Fields.{taken_from};
ghost use Rattle.format.specs.Skip.{end_of};
ghost use Rattle.format.specs.Cursor.{null_at, record_mark, union_mark, group_end};
ghost use Rattle.scalar.specs.Answers.{got_int};

use crate::ints;
use crate::marks::expect_mark;
use crate::taken::Taken;
use format::Refusal;

// Does a group end here: a 00 not followed by FF?
pub fn ends_here(rest: &[u8]) -> bool
    ensures { result ≡ ends_here rest.now }
{
    if rest.len() == 0 {
        return false;
    }
    if rest[0] != format::MARK_TERM {
        return false;
    }
    if rest.len() < 2 {
        return true;
    }
    rest[1] != format::MARK_ESCAPE
}

// Opens a record: its mark, then its depth.
pub fn open_record(rest: &[u8], depth: u32) -> Result<usize, Refusal>
    ensures { answered result ≡ end_of rest.now (record_mark depth rest.now) }
{
    expect_mark(rest, format::MARK_RECORD)?;
    if depth < format::MAX_RECORD_DEPTH {
        return Ok(1);
    }
    Err(Refusal::BadRecord)
}

// Opens a union: its mark, its discriminant, then its depth. The discriminant may be any 64-bit number.
pub fn open_union(rest: &[u8], depth: u32) -> Result<Taken<u64>, Refusal>
    ensures { got_int result ≡ taken_from rest.now (union_mark depth rest.now) }
{
    expect_mark(rest, format::MARK_UNION)?;
    let tag = ints::get_u64(&rest[1..])?;
    if format::MAX_RECORD_DEPTH <= depth {
        return Err(Refusal::BadRecord);
    }
    Ok(Taken {
        value: tag.value,
        used: tag.used + 1,
    })
}

// Closes a group.
pub fn close(rest: &[u8]) -> Result<usize, Refusal>
    ensures { answered result ≡ end_of rest.now (group_end rest.now) }
{
    if rest.len() == 0 {
        return Err(Refusal::UnexpectedEof);
    }
    if ends_here(rest) {
        return Ok(1);
    }
    Err(Refusal::UnexpectedMark(rest[0]))
}

// Takes a null. Its escape is due inside a group, where 00 alone would be the end.
pub fn null(rest: &[u8], escape: bool) -> Result<usize, Refusal>
    ensures { answered result ≡ end_of rest.now (null_at (if escape 1 0) rest.now) }
{
    expect_mark(rest, format::MARK_NULL)?;
    if escape {
        if ends_here(rest) {
            return Err(Refusal::UnexpectedTerminator);
        }
        return Ok(2);
    }
    Ok(1)
}
