// Single fields as bytes: integers, escaped runs, references and union tags, written and read.
#![tactic(auto)]

pub mod groups;
pub mod ints;
mod marks;
pub mod payloads;
pub mod puts;
pub mod refs;
pub mod runs;
pub mod starts;
pub mod tag;
mod taken;

pub use ints::{get_i64, get_u64};
pub use payloads::{Place, get_bytes, get_str, payload};
pub use puts::{put_bytes, put_fact_id, put_i64, put_str, put_u64};
pub use refs::{fact_ref_bytes, get_fact_id, judge};
pub use tag::UnionTag;
pub use taken::Taken;
