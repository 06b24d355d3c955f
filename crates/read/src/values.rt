// The value walkers and the field-list walker, which call each other: a group calls at a later place of the type sheet.
ghost use Rattle.std.specs.Prelude.{◌≤◌, ◌<◌, length, get_or};
ghost use Rattle.read.specs.Walk.{TypeAt, FieldsAt, ValueWalk, FieldWalk};

use crate::answers::{blank, more};
use crate::groups::{close_union, field_refusal, fields_end};
use crate::leaves::walk_scalar;
use crate::{Refused, Walked};
use format::Refusal;

// A value under the type at a place of the sheet. Under an optional type a null is read; what is none is read as the type behind word 7. The one call of
// `walk_plain` stands here, so that it is no frame of its own.
#[cycle(walks)]
pub fn walk_value(
    ty: &[u32],
    at: usize,
    bytes: &[u8],
    i: usize,
    depth: u32,
    asked: bool,
) -> Result<Walked, Refused>
    requires { (TypeAt ty.now at) × (i ≤ length bytes.now) }
    ensures { ValueWalk ty.now at bytes.now i depth asked result }
{
    let mut place = at;
    if ty[at] == format::KIND_OPTIONAL {
        if let Ok(used) = scalar::groups::null(&bytes[i..], 0 < depth) {
            return Ok(blank(sheet::skip_type(ty, at, asked), i + used));
        }
        place = at + 1;
    }
    walk_plain(ty, place, bytes, i, depth, asked)
}

// A value under a type that is not optional. The kinds below a record's are a range, so tests say it as plainly as a match.
#[cycle(walks)]
fn walk_plain(
    ty: &[u32],
    at: usize,
    bytes: &[u8],
    i: usize,
    depth: u32,
    asked: bool,
) -> Result<Walked, Refused>
    requires { (TypeAt ty.now at) × ((i ≤ length bytes.now) × (get_or ty.now at 0 < 7)) }
    ensures { ValueWalk ty.now at bytes.now i depth asked result }
{
    let kind = ty[at];
    if kind < format::KIND_RECORD {
        return walk_scalar(ty, at, &bytes[i..], i);
    }
    if kind == format::KIND_RECORD {
        let n = ty[at + 1];
        let used = scalar::groups::open_record(&bytes[i..], depth)?;
        let r = walk_fields(ty, at + 2, n, bytes, i + used, depth + 1, asked);
        return more(r, 2, 1);
    }
    let opened = scalar::groups::open_union(&bytes[i..], depth)?;
    let tag = opened.value;
    let choice = sheet::alternative(ty, at, tag);
    let place = choice.place.ok_or(Refusal::UnknownDiscriminant(tag))?;
    let r = walk_value(ty, place, bytes, i + opened.used, depth + 1, asked);
    more(close_union(ty, bytes, r, choice.left, asked), 2, 1)
}

// The n fields whose types stand at a place of the sheet: bare at depth 0, else those of a group, with its end.
#[cycle(walks)]
pub fn walk_fields(
    ty: &[u32],
    at: usize,
    n: u32,
    bytes: &[u8],
    i: usize,
    depth: u32,
    asked: bool,
) -> Result<Walked, Refused>
    requires { (FieldsAt ty.now at n) × (i ≤ length bytes.now) }
    ensures { FieldWalk ty.now at n bytes.now i depth asked result }
{
    let mut sum = Walked {
        at,
        next: i,
        words: 0,
        pool: 0,
        begun: 0,
    };
    for done in 0..n {
        if let Err(why) = field_refusal(bytes, sum.next, depth) {
            return Err(Refused {
                why,
                begun: sum.begun,
            });
        }
        // a name of its own, so that what was lent is read by halves, as it was handed over
        let key = bytes;
        match walk_value(
            ty,
            sum.at,
            key,
            sum.next,
            depth,
            sheet::asks(n - done, asked),
        ) {
            Err(refused) => return Err(refused.after(sum.begun)),
            Ok(field) => {
                sum = Walked {
                    words: sum.words + field.words,
                    pool: sum.pool + field.pool,
                    begun: sum.begun + field.begun,
                    ..field
                };
            }
        }
    }
    match fields_end(bytes, sum.next, depth) {
        Err(why) => Err(Refused {
            why,
            begun: sum.begun,
        }),
        Ok(next) => Ok(Walked { next, ..sum }),
    }
}
