// The bounds call: the two ends of the keys with the same first k fields.
ghost use Rattle.std.specs.Prelude.{◌≤◌, length, take};
ghost use Rattle.format.specs.Answer.{ok};
ghost use Rattle.format.specs.Calls.{bounded, bounds_call};
ghost use Rattle.key.specs.Keys.{BoundsLeft};

use crate::{passing, records};
use format::Refusal;

/// The lengths of the lower and the upper end of a range of keys.
#[derive(Clone, Copy, Debug, PartialEq, Eq)]
pub struct Ends {
    pub lower: usize,
    pub upper: usize,
}

// Writes the key's first n bytes as the lower end and, with FF behind them, as the upper.
fn write_ends(key: &[u8], n: usize, lower: &mut [u8], upper: &mut [u8]) -> Result<Ends, Refusal>
    requires { n ≤ length key.now }
    ensures { BoundsLeft (bounded lower.old upper.old (ok (take n key.now))) result lower.new upper.new }
{
    if lower.len() < n {
        return Err(Refusal::NoRoom(n));
    }
    let end = ends::above_field(&key[..n], upper)?;
    blocks::copy_front(lower, key, n);
    Ok(Ends {
        lower: n,
        upper: end,
    })
}

// The ends of the keys of the type that begin with this key's first k fields.
pub fn bounds(
    ty: &[u32],
    key: &[u8],
    k: usize,
    lower: &mut [u8],
    upper: &mut [u8],
) -> Result<Ends, Refusal>
    ensures { BoundsLeft (bounds_call ty.now key.now k lower.old upper.old) result lower.new upper.new }
{
    let n = records::field_count(ty)?;
    if (n as usize) < k {
        return Err(Refusal::NoField);
    }
    let end = passing::split_key(ty, n, key, k as u32)?;
    write_ends(key, end, lower, upper)
}
