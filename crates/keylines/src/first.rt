// The first line: an admitted type, or why there is none.
ghost use Rattle.std.specs.Prelude.{◌≤◌, length};
ghost use Rattle.format.specs.TypeSheet.{max_type_words};
ghost use Rattle.keylines.specs.Answers.{TypedRead, FirstRead};

use crate::finding::find;
use crate::pieces::Left;
use crate::reason::Reason;
use crate::types::type_words;

// The longest input that is read.
pub const MAX_INPUT: usize = 65536;

// How many words of an admitted type stand at the front of the buffer, and the key lines, which are counted from 1.
#[derive(Clone, Copy)]
pub struct First {
    pub words: usize,
    pub left: Left,
}

// Reads the text of a type: how many words of an admitted one stand at the front of the buffer.
fn read_type(text: &[u8], ty: &mut [u32]) -> Result<usize, Reason>
    requires { max_type_words ≤ length ty.old }
    ensures { TypedRead text.now ty.new result }
{
    if find(text, 0, b'\r').is_some() {
        return Err(Reason::CarriageReturn);
    }
    let n = type_words(text, ty)?;
    if sheet::admit_type(&ty[..n]) {
        Ok(n)
    } else {
        Err(Reason::NotAdmitted)
    }
}

// Reads the first line of an input: the type goes into a buffer that has room for the longest.
pub fn read_first(input: &[u8], ty: &mut [u32]) -> Result<First, Reason>
    requires { max_type_words ≤ length ty.old }
    ensures { FirstRead input.now ty.new result }
{
    if MAX_INPUT < input.len() {
        return Err(Reason::TooLong);
    }
    let feed = find(input, 0, b'\n').ok_or(Reason::NoLine)?;
    let words = read_type(&input[..feed], ty)?;
    let left = Left {
        at: feed + 1,
        line: 1,
    };
    Ok(First { words, left })
}
