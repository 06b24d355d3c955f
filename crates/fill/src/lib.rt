// The value sheet of a key that is known to decode, by the key's marks alone: a value's type has no part in its bytes.
// Fields end at the end of the key, and inside a group where the group does. A blank is one word; every other value has two at least.
#![tactic(auto)]

mod groups;
mod leaves;

pub use groups::{fill_bare, fill_value};

// The next places in the key, the words and the pool, and how many fields were passed.
#[derive(Clone, Copy)]
pub struct Filled {
    pub next: usize,
    pub words: usize,
    pub pool: usize,
    pub count: u64,
}
