// Skipping one field of a key without its type.
#![tactic(auto)]

ghost use Rattle.std.specs.Prelude.{◌≡◌, true, ◌&&◌, ltb, eqb, get_or};
ghost use Rattle.format.specs.Refusals.{answered};
ghost use Rattle.format.specs.Encode.{max_depth};
ghost use Rattle.format.specs.Read.{ends_here};
ghost use Rattle.format.specs.Fields.{taken_from};
ghost use Rattle.format.specs.Calls.{skip_call};
ghost use Rattle.skip.specs.Tokens.{token_of, field, number_mark, run_mark, Begins, RunEnds, Left};

use format::Refusal;
use scalar::{groups, ints, runs};

// Is a group open, and does it end here?
fn group_ends(rest: &[u8], depth: u32) -> bool
    ensures { result ≡ (ltb 0 depth && ends_here rest.now) }
{
    0 < depth && groups::ends_here(rest)
}

// A null. Its escape is due inside a group, and where it is required.
fn null_token(rest: &[u8], depth: u32, escape: bool) -> Result<(u32, usize), Refusal>
    requires { Begins rest.now 0x00 }
    ensures { token_of result ≡ taken_from rest.now (field escape depth rest.now) }
{
    let n = groups::null(rest, escape || 0 < depth)?;
    Ok((depth, n))
}

// A union opens. Its depth is checked before its discriminant is read.
fn union_token(rest: &[u8], depth: u32, escape: bool) -> Result<(u32, usize), Refusal>
    requires { Begins rest.now 0x52 }
    ensures { token_of result ≡ taken_from rest.now (field escape depth rest.now) }
{
    if format::MAX_RECORD_DEPTH <= depth {
        return Err(Refusal::BadRecord);
    }
    let tag = groups::open_union(rest, depth)?;
    Ok((depth + 1, tag.used))
}

// Is it the mark of an integer or a reference?
fn number_mark(mark: u8) -> bool
    ensures { result ≡ number_mark mark }
{
    matches!(mark, format::MARK_INT_NEG_MIN..=format::MARK_FACT_REF)
}

// What the rest of a key begins with where no number can be passed, no group ends, no record may open and no run starts: a null, a union or a refusal.
// Of what is passed over it says how many groups are open behind it and how many bytes it took.
fn left_token(rest: &[u8], depth: u32, escape: bool) -> Result<(u32, usize), Refusal>
    requires { Left depth rest.now }
    ensures { token_of result ≡ taken_from rest.now (field escape depth rest.now) }
{
    let Some(&mark) = rest.first() else {
        return Err(Refusal::UnexpectedEof);
    };
    match mark {
        format::MARK_UNION => union_token(rest, depth, escape),
        format::MARK_NULL => null_token(rest, depth, escape),
        format::MARK_RECORD => Err(Refusal::BadRecord),
        mark if number_mark(mark) => Err(Refusal::UnexpectedEof),
        mark => Err(Refusal::UnexpectedMark(mark)),
    }
}

// Does the rest of a key begin with the mark of a run?
fn starts_run(rest: &[u8]) -> bool
    ensures { result ≡ run_mark (get_or rest.now 0 0) }
{
    matches!(
        rest.first(),
        Some(&format::MARK_STRING | &format::MARK_BYTES)
    )
}

// How many bytes a run takes, its mark in front of it, if it ends.
fn run_len(rest: &[u8]) -> Option<usize>
    requires { run_mark (get_or rest.now 0 0) ≡ true }
    ensures { RunEnds rest.now result }
{
    let end = runs::run_end(rest, 1);
    if rest.len() <= end {
        return None;
    }
    Some(end + 1)
}

// Does a record open here, and may it?
fn record_opens(rest: &[u8], depth: u32) -> bool
    ensures { result ≡ (eqb (get_or rest.now 0 0) 0x22 && ltb depth max_depth) }
{
    groups::open_record(rest, depth).is_ok()
}

// The place in the key behind the field that starts at a place, any place. Numbers, runs, a record's opening and a group's end go without a token; numbers
// and ends in a row have loops of their own, since most keys have them so.
pub fn skip(bytes: &[u8], start: usize, require_escape_null: bool) -> Result<usize, Refusal>
    ensures { answered result ≡ skip_call bytes.now start require_escape_null }
{
    if bytes.len() < start {
        return Err(Refusal::UnexpectedEof);
    }
    let mut i = start;
    let mut depth: u32 = 0;
    let end = 'groups: loop {
        loop {
            let n = ints::unjudged_len(&bytes[i..]);
            if n == 0 {
                break;
            }
            i += n;
            if depth == 0 {
                break 'groups i;
            }
        }
        if group_ends(&bytes[i..], depth) {
            loop {
                i += 1;
                depth -= 1;
                if depth == 0 {
                    break 'groups i;
                }
                if !group_ends(&bytes[i..], depth) {
                    break;
                }
            }
        } else if record_opens(&bytes[i..], depth) {
            i += 1;
            depth += 1;
        } else if starts_run(&bytes[i..]) {
            let Some(n) = run_len(&bytes[i..]) else {
                return Err(Refusal::UnexpectedEof);
            };
            i += n;
            if depth == 0 {
                break 'groups i;
            }
        } else {
            let (inner, n) = left_token(&bytes[i..], depth, require_escape_null)?;
            i += n;
            depth = inner;
            if depth == 0 {
                break 'groups i;
            }
        }
    };
    Ok(end)
}
