// The rows of the key lines, in pieces: each as many rows as its buffer has room for.
ghost use Rattle.std.specs.Prelude.{◌≡◌, true, ◌*◌, ◌≤◌, length};
ghost use Rattle.format.specs.TypeSheet.{is_some, type_of};
ghost use Rattle.keylines.specs.Answers.{NoTypePut, KeyTold, LineAsked, LineTold, PieceAsked, PiecePut};

use crate::finding::find;
use crate::keys::pairs;
use crate::rows::{MAX_ROW, put_told};
use decode::Refused;
use format::Refusal;

// Room for the longest key: two digits of the input make a byte.
pub const KEY_ROOM: usize = 32768;

// Room for a piece: some hundred rows at least.
pub const PIECE_ROOM: usize = 16384;

// A row with no value begun.
const BAD_LINE: Refused = Refused {
    why: Refusal::BadLine,
    begun: 0,
};

// What a key line's row tells behind its place, and the place behind the line.
#[derive(Clone, Copy)]
struct Line {
    told: Result<usize, Refused>,
    next: usize,
}

// The key lines that are left: where they begin, and the number of the first.
#[derive(Clone, Copy)]
pub struct Left {
    pub at: usize,
    pub line: u64,
}

// How many bytes were put at the front of the buffer, and the key lines that are left.
#[derive(Clone, Copy)]
pub struct Piece {
    pub len: usize,
    pub left: Left,
}

// What the row of a line with this text tells.
fn tell_key(text: &[u8], ty: &[u32], key: &mut [u8]) -> Result<usize, Refused>
    requires typed { is_some (type_of ty.now) ≡ true }
    requires fits { length text.now ≤ 2 * length key.old }
    ensures { KeyTold ty.now text.now result }
{
    let n = pairs(text, key).ok_or(BAD_LINE)?;
    decode::check_admitted(ty, &key[..n])
}

// What the row of the line at a place tells. A last line that doesn't end with a line feed is bad.
fn tell_line(input: &[u8], at: usize, ty: &[u32], key: &mut [u8]) -> Line
    requires { LineAsked input.now ty.now key.old at }
    ensures { LineTold ty.now input.now at result }
{
    match find(input, at, b'\n') {
        Some(feed) => Line {
            told: tell_key(&input[at..feed], ty, key),
            next: feed + 1,
        },
        None => Line {
            told: Err(BAD_LINE),
            next: input.len(),
        },
    }
}

// Puts the rows of the key lines that are left, as many as there is room for.
pub fn put_piece(
    input: &[u8],
    left: Left,
    ty: &[u32],
    key: &mut [u8; KEY_ROOM],
    piece: &mut [u8; PIECE_ROOM],
) -> Piece
    requires { PieceAsked input.now ty.now left }
    ensures { PiecePut ty.now input.now left piece.old piece.new result }
{
    let Left { mut at, mut line } = left;
    let mut len = 0;
    while at < input.len() && MAX_ROW <= PIECE_ROOM - len {
        let row = tell_line(input, at, ty, key);
        len = put_told(piece, len, line, row.told);
        at = row.next;
        line += 1;
    }
    let left = Left { at, line };
    Piece { len, left }
}

// Puts the row of no type.
pub fn put_no_type(piece: &mut [u8; PIECE_ROOM]) -> usize
    ensures { NoTypePut piece.old piece.new result }
{
    let no_type = Refused {
        why: Refusal::BadType,
        begun: 0,
    };
    put_told(piece, 0, 0, Err(no_type))
}
