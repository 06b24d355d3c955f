// Text: UTF-8 as in RFC 3629, the character at a place and whether bytes are text.
#![tactic(auto)]

mod characters;
mod sequences;
mod threes;
mod whole;

pub use characters::{Character, char_at, char_width};
pub use whole::valid;
