// Lists of bytes, of words and of type words, put into buffers of their own width or compared with what such a buffer holds.
ghost use Rattle.std.specs.Prelude.{◌≡◌, ◌≤◌, length, take};
ghost use Rattle.lines.specs.Counts.{Counts};

use crate::fields::field;
use crate::lists::{Element, numeral, pair, start, step};

// Puts a list into a buffer, and counts its elements: none where the text is no list, or a longer one than the buffer.
fn put<T: Copy, E: Fn(&[u8], usize) -> Option<Element>, F: Fn(u64) -> T>(
    text: &[u8],
    element: E,
    narrow: F,
    buf: &mut [T],
) -> usize
    requires reads { E.IsAlwaysCallable element }
    requires narrows { F.IsAlwaysCallable narrow }
    ensures { (result ≤ length buf.new) × (result ≡ length (take result buf.new)) }
{
    let mut next = start(text);
    let mut n = 0;
    for slot in buf.iter_mut() {
        let Some(place) = next else {
            break;
        };
        let Ok(taken) = step(text, &element, place) else {
            return 0;
        };
        *slot = narrow(taken.value);
        next = taken.next;
        n += 1;
    }
    if next.is_none() { n } else { 0 }
}

// The same for the list of a field. A number that is too wide reads as 0.
pub fn bytes(line: &[u8], number: usize, buf: &mut [u8; 72000]) -> usize
    ensures { Counts result buf.new }
{
    put(
        field(line, number),
        pair,
        |n| u8::try_from(n).unwrap_or(0),
        buf,
    )
}

pub fn words(line: &[u8], number: usize, buf: &mut [u64; 8192]) -> usize
    ensures { Counts result buf.new }
{
    put(field(line, number), numeral, |n| n, buf)
}

// Room for the longest type sheet, and one word more.
pub fn types(line: &[u8], number: usize, buf: &mut [u32; format::MAX_TYPE_WORDS + 1]) -> usize
    ensures { Counts result buf.new }
{
    put(
        field(line, number),
        numeral,
        |n| u32::try_from(n).unwrap_or(0),
        buf,
    )
}

// Is a text the list of a buffer's elements from one place to another?
fn is_list<T: Copy, E: Fn(&[u8], usize) -> Option<Element>, F: Fn(T) -> u64>(
    text: &[u8],
    element: E,
    at: usize,
    end: usize,
    found: &[T],
    widen: F,
) -> bool
    requires reads { E.IsAlwaysCallable element }
    requires widens { F.IsAlwaysCallable widen }
{
    let mut next = start(text);
    for i in at..end {
        let (Some(place), Some(wanted)) = (next, found.get(i)) else {
            return false;
        };
        match step(text, &element, place) {
            Ok(taken) if taken.value == widen(*wanted) => next = taken.next,
            _ => return false,
        }
    }
    next.is_none()
}

// Whether a field is the list of a buffer's bytes from one place to another.
pub fn is_bytes(line: &[u8], number: usize, at: usize, end: usize, found: &[u8]) -> bool {
    is_list(field(line, number), pair, at, end, found, |b| u64::from(b))
}

// Whether a field is the list of a buffer's first n words.
pub fn is_words(line: &[u8], number: usize, n: usize, found: &[u64]) -> bool {
    is_list(field(line, number), numeral, 0, n, found, |w| w)
}
