// The line of type words: in decimal, parted by tabs.
ghost use Rattle.std.specs.Prelude.{◌≡◌, set};
ghost use Rattle.format.specs.Keylist.{word_of};
ghost use Rattle.keylines.specs.Answers.{option_of, WordsRead};

use crate::digits::decimal;
use crate::finding::find;
use crate::reason::Reason;

// A type word is 1 to 10 digits and below 2^32.
fn type_word(text: &[u8]) -> Option<u32>
    ensures { option_of result ≡ word_of text.now }
{
    let 1..=10 = text.len() else {
        return None;
    };
    let mut n: u32 = 0;
    for b in text {
        let digit = decimal(*b)?;
        n = n.checked_mul(10)?.checked_add(u32::from(digit))?;
    }
    Some(n)
}

// Puts a word into a buffer; one behind its end is left out. Stays: behind `get_mut` a proof knows no element of the buffer.
fn keep_word(ty: &mut [u32], n: usize, x: u32)
    ensures { ty.new ≡ set ty.old n x }
{
    if n < ty.len() {
        ty[n] = x;
    }
}

// The words of a line, put at the front of a buffer: how many, where none is bad and the buffer has room for them.
pub fn type_words(text: &[u8], ty: &mut [u32]) -> Result<usize, Reason>
    ensures { WordsRead text.now ty.new result }
{
    let mut start = 0;
    let mut n = 0;
    loop {
        let tab = find(text, start, b'\t');
        let end = tab.unwrap_or(text.len());
        let x = type_word(&text[start..end]).ok_or(Reason::BadWord(n + 1))?;
        keep_word(ty, n, x);
        n += 1;
        if tab.is_none() {
            break;
        }
        start = end + 1;
    }
    if ty.len() < n {
        return Err(Reason::NotAdmitted);
    }
    Ok(n)
}
