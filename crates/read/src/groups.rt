// The steps of groups that go by their types: a union's end, and where fields begin and end.
ghost use Rattle.std.specs.Prelude.{◌≤◌, length, drop};
ghost use Rattle.read.specs.Walk.{InKey, ClosesUnion, Begins, Finishes};

use crate::{Refused, Walked};
use format::Refusal;

// Closes a union whose payload was read.
pub fn close_union(
    ty: &[u32],
    bytes: &[u8],
    r: Result<Walked, Refused>,
    left: u32,
    asked: bool,
) -> Result<Walked, Refused>
    requires { InKey bytes.now r }
    ensures { ClosesUnion ty.now bytes.now left asked r result }
{
    let payload = r?;
    match scalar::groups::close(&bytes[payload.next..]) {
        Err(why) => Err(Refused {
            why,
            begun: payload.begun,
        }),
        Ok(used) => Ok(Walked {
            at: sheet::union_end(ty, payload.at, left, asked),
            next: payload.next + used,
            ..payload
        }),
    }
}

// What refuses a field that is to begin here, in a group the key's or the group's end.
pub fn field_refusal(bytes: &[u8], i: usize, depth: u32) -> Result<(), Refusal>
    requires { i ≤ length bytes.now }
    ensures { Begins depth (drop i bytes.now) result }
{
    if depth == 0 {
        return Ok(());
    }
    if bytes.len() == i {
        return Err(Refusal::UnexpectedEof);
    }
    if scalar::groups::ends_here(&bytes[i..]) {
        return Err(Refusal::BadRecord);
    }
    Ok(())
}

// The place behind fields of which none is left, in a group behind its end.
pub fn fields_end(bytes: &[u8], i: usize, depth: u32) -> Result<usize, Refusal>
    requires { i ≤ length bytes.now }
    ensures { Finishes depth bytes.now i result }
{
    if depth == 0 {
        return Ok(i);
    }
    if bytes.len() == i {
        return Err(Refusal::UnexpectedEof);
    }
    if scalar::groups::ends_here(&bytes[i..]) {
        return Ok(i + 1);
    }
    Err(Refusal::BadRecord)
}
