// Lists in a field: `-` is empty; else parts joined by `+`. A part is plain elements, or `*`, plain elements, `x` and how many times they stand there.
// Plain elements are pairs of hexadecimal digits, or decimal numbers joined by `,`. A list is read element by element.
ghost use Rattle.std.specs.Prelude.{◌<◌, IfSome};

use crate::numbers::decimal;
use std::cmp::Ordering;

// An element, the place behind it, and the place of the next of the same part.
#[derive(Clone, Copy)]
pub struct Element {
    pub value: u64,
    pub end: usize,
    pub next: usize,
}

// A repetition: the place of its first element, and how many times it was read.
#[derive(Clone, Copy)]
pub struct Repeat {
    first: usize,
    times: u64,
}

// Where a list is read on, and in which repetition.
#[derive(Clone, Copy)]
pub struct Place {
    at: usize,
    repeat: Option<Repeat>,
}

// The value read, and where the list is read on: nowhere behind its last element.
#[derive(Clone, Copy)]
pub struct Taken {
    pub value: u64,
    pub next: Option<Place>,
}

// The text does not go on as a list.
#[derive(Clone, Copy)]
pub struct NoList;

// A hexadecimal digit's number. It stays a match: `to_digit` takes capitals too, which are no digits here.
fn digit(b: u8) -> Option<u8>
    ensures { IfSome result (λ d. d < 16) }
{
    match b {
        b'0'..=b'9' => Some(b - b'0'),
        b'a'..=b'f' => Some(b - b'a' + 10),
        _ => None,
    }
}

// The byte of the pair of digits from a place on.
pub fn pair(text: &[u8], at: usize) -> Option<Element> {
    let high = digit(*text.get(at)?)?;
    let low = digit(*text.get(at + 1)?)?;
    Some(Element {
        value: u64::from(high * 16 + low),
        end: at + 2,
        next: at + 2,
    })
}

// The number from a place on. A comma behind it leads to the next.
pub fn numeral(text: &[u8], at: usize) -> Option<Element> {
    let n = decimal(text, at)?;
    let next = match text.get(n.end) {
        Some(b',') => n.end + 1,
        _ => n.end,
    };
    Some(Element {
        value: n.value,
        end: n.end,
        next,
    })
}

// The beginning of a part, which `*` makes a repetition.
fn part(text: &[u8], at: usize) -> Place {
    match text.get(at) {
        Some(b'*') => Place {
            at: at + 1,
            repeat: Some(Repeat {
                first: at + 1,
                times: 0,
            }),
        },
        _ => Place { at, repeat: None },
    }
}

// The beginning of a list that is not empty.
pub fn start(text: &[u8]) -> Option<Place> {
    match text {
        b"-" => None,
        _ => Some(part(text, 0)),
    }
}

// Behind a part that ends at a place: another part, or nothing.
fn joined(text: &[u8], end: usize) -> Result<Option<Place>, NoList> {
    match text.get(end) {
        Some(b'+') => Ok(Some(part(text, end + 1))),
        Some(_) => Err(NoList),
        None => Ok(None),
    }
}

// Behind a repetition's last element: its first once more, or what follows the count that stands at a place.
fn repeated(text: &[u8], at: usize, repeat: Option<Repeat>) -> Result<Option<Place>, NoList> {
    let Repeat { first, times } = repeat.ok_or(NoList)?;
    let count = decimal(text, at).ok_or(NoList)?;
    let times = times.checked_add(1).ok_or(NoList)?;
    match times.cmp(&count.value) {
        Ordering::Less => Ok(Some(Place {
            at: first,
            repeat: Some(Repeat { first, times }),
        })),
        Ordering::Equal => joined(text, count.end),
        Ordering::Greater => Err(NoList),
    }
}

// Reads the element at a place.
pub fn step<E: Fn(&[u8], usize) -> Option<Element>>(
    text: &[u8],
    element: &E,
    place: Place,
) -> Result<Taken, NoList>
    requires { E.IsAlwaysCallable element.now }
{
    let Place { at, repeat } = place;
    let e = element(text, at).ok_or(NoList)?;
    let next = match text.get(e.end) {
        Some(b'x') => repeated(text, e.end + 1, repeat)?,
        Some(b'+') | None => match repeat {
            Some(_) => return Err(NoList),
            None => joined(text, e.end)?,
        },
        Some(_) => Some(Place { at: e.next, repeat }),
    };
    Ok(Taken {
        value: e.value,
        next,
    })
}
