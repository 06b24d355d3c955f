// Sheets: types and values as lists of words, admitted and walked.
#![tactic(auto)]

mod types; // types.rt: where a type ends, and whether a type sheet is admitted
mod alternatives; // alternatives.rt: a union's alternatives
mod values; // values.rt: where a value ends, and whether a value sheet is admitted

pub use alternatives::{Choice, alternative, skip_alternatives, union_end};
pub use types::{admit_type, alternatives_end, asks, skip_fields, skip_type, type_end};
pub use values::{Place, admit_value, value_end};
