// Answers made: a refusal, a scalar, a blank, and what stands around what was read.
ghost use Rattle.std.specs.Prelude.{◌≡◌, ◌+◌, ◌^◌, ◌≤◌, ◌<◌, Ok};
ghost use Rattle.read.specs.Walk.{plus, Small, bad, good};

use crate::{Refused, Walked};
use format::Refusal;

// A value that is refused where it begins is itself the one begun.
impl From<Refusal> for Refused {
    ghost from_gives = { λ e r. r ≡ record { why = e; begun = 1 } };

    fn from(why: Refusal) -> Refused {
        Refused { why, begun: 1 }
    }
}

impl Refused {
    // The same behind so many values begun.
    pub fn after(self, begun: usize) -> Refused
        requires { begun + self.begun < 2 ^ 64 }
        ensures { result ≡ record { why = self.why; begun = begun + self.begun } }
    {
        Refused {
            why: self.why,
            begun: begun + self.begun,
        }
    }
}

// A scalar: two words, and one value begun.
pub fn leaf(at: usize, next: usize, pool: usize) -> Walked
    ensures { result ≡ good at next 2 pool 1 }
{
    Walked {
        at,
        next,
        words: 2,
        pool,
        begun: 1,
    }
}

// A blank: one word, nothing of the pool, and one value begun.
pub fn blank(at: usize, next: usize) -> Walked
    ensures { result ≡ good at next 1 0 1 }
{
    Walked {
        at,
        next,
        words: 1,
        pool: 0,
        begun: 1, // blank or filled
    }
}

// So many words and values begun more: what a record or a union adds to what it holds.
pub fn more(r: Result<Walked, Refused>, w: usize, b: usize) -> Result<Walked, Refused>
    requires { (w ≤ 2) × (b ≤ 1) × Small r }
    ensures { result ≡ plus w 0 b r }
{
    match r {
        Err(refused) => Err(refused.after(b)),
        Ok(inside) => Ok(Walked {
            words: w + inside.words,
            begun: b + inside.begun,
            ..inside
        }),
    }
}
