// What keylist writes for its input: the type that its first line names, or why there is none; the rows of its key lines, in pieces.
#![tactic(auto)]

mod digits;
mod finding;
mod first;
mod keys;
mod pieces;
mod reason;
mod rows;
mod types;

pub use first::{First, MAX_INPUT, read_first};
pub use pieces::{KEY_ROOM, Left, PIECE_ROOM, Piece, put_no_type, put_piece};
pub use reason::Reason;
