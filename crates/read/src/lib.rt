// Decoding without keeping: a walk over a type and a key, which finds every refusal, or how much room the value takes.
#![tactic(auto)]

mod answers;
mod groups;
mod keys;
mod leaves;
mod values;

use format::Refusal;
pub use keys::walk_bare;
pub use values::{walk_fields, walk_value};

// How a walk ended: the next places in the type and the key, and of what was read the words, the bytes for the pool and the values begun.
#[derive(Clone, Copy)]
pub struct Walked {
    pub at: usize,
    pub next: usize,
    pub words: usize,
    pub pool: usize,
    pub begun: usize,
}

// Why a walk ended before, and the values begun.
#[derive(Clone, Copy)]
pub struct Refused {
    pub why: Refusal,
    pub begun: usize,
}
