// The leaves that touch long runs of bytes, in blocks: a block is a literal number of bytes with no exit inside, so that it becomes vector code.
#![tactic(auto)]

mod comparing;
mod copying;
mod low;
mod scan;
mod zeros;

pub use comparing::{compare, differ_at};
pub use copying::{copy_clear, copy_front, copy_to, move_within};
pub use low::{low_blocks, past_ascii};
pub use zeros::{count_zeros, zero_from};
