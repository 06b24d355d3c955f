// The scalars, at the front of what is left of a key from the place i on: each is read and judged.
ghost use Rattle.std.specs.Prelude.{◌+◌, ◌^◌, ◌<◌, length, get_or};
ghost use Rattle.format.specs.Tree.{Ty};
ghost use Rattle.read.specs.Walk.{TypeAt, LeafWalk, ScalarWalk};

use crate::answers::leaf;
use crate::{Refused, Walked};
use format::Refusal;

fn walk_int(rest: &[u8], i: usize, at: usize) -> Result<Walked, Refused>
    requires { i + length rest.now < 2 ^ 64 }
    ensures { LeafWalk Ty.Int rest.now i at result }
{
    let word = scalar::get_i64(rest)?;
    Ok(leaf(at, i + word.used, 0))
}

fn walk_str(rest: &[u8], i: usize, at: usize) -> Result<Walked, Refused>
    requires { i + length rest.now < 2 ^ 64 }
    ensures { LeafWalk Ty.Str rest.now i at result }
{
    let run = scalar::runs::marked_run(rest, format::MARK_STRING)?;
    if !scalar::runs::payload_is_text(&rest[1..run.end], run.len) {
        return Err(Refused {
            why: Refusal::BadString,
            begun: 1,
        });
    }
    Ok(leaf(at, i + run.end + 1, run.len))
}

fn walk_bytes(rest: &[u8], i: usize, at: usize) -> Result<Walked, Refused>
    requires { i + length rest.now < 2 ^ 64 }
    ensures { LeafWalk Ty.Bytes rest.now i at result }
{
    let run = scalar::runs::marked_run(rest, format::MARK_BYTES)?;
    Ok(leaf(at, i + run.end + 1, run.len))
}

// A reference: it is read, and then judged under its declared predicate.
fn walk_ref(rest: &[u8], i: usize, predicate: u32, at: usize) -> Result<Walked, Refused>
    requires { i + length rest.now < 2 ^ 64 }
    ensures { LeafWalk (Ty.Ref predicate) rest.now i at result }
{
    let fact = scalar::get_fact_id(rest)?;
    scalar::refs::judge(predicate, fact.value)?;
    Ok(leaf(at, i + fact.used, 0))
}

// A scalar under the type at a place of the sheet.
pub fn walk_scalar(ty: &[u32], at: usize, rest: &[u8], i: usize) -> Result<Walked, Refused>
    requires typed { TypeAt ty.now at }
    requires plain { (get_or ty.now at 0 < 5) × (i + length rest.now < 2 ^ 64) }
    ensures { ScalarWalk ty.now at rest.now i result }
{
    let j = at + 1;
    match ty[at] {
        format::KIND_INT => walk_int(rest, i, j),
        format::KIND_STR => walk_str(rest, i, j),
        format::KIND_BYTES => walk_bytes(rest, i, j),
        _ => walk_ref(rest, i, ty[j], at + 2),
    }
}
