// Keys of record types: the bounds call and replacement, over passing a key's fields; and the calls that make their ends of values, the span call and the prefix
// call. What they rest on stands in proofs/.
#![tactic(auto)]

mod bounding;
mod passing;
mod records;
mod replacing;
mod spanning;
mod starting;

pub use bounding::{Ends, bounds};
pub use replacing::replace;
pub use spanning::span;
pub use starting::starting_with;
