// Lines of text: their fields, and the numbers and lists that these hold. Every call is total: a field that a line lacks is empty.
#![tactic(auto)]

mod elements;
mod fields;
mod lists;
mod numbers;

pub use elements::{bytes, is_bytes, is_words, types, words};
pub use fields::{field, find, place_of};
pub use numbers::{are_decimals, size};
