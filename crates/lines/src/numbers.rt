// Decimal numbers.
use crate::fields::field;

// A number of a text, and the place behind it.
#[derive(Clone, Copy)]
pub struct Number {
    pub value: u64,
    pub end: usize,
}

// The number that stands from a place on, of 64 bits at most.
pub fn decimal(text: &[u8], at: usize) -> Option<Number> {
    let rest = text.get(at..)?;
    let n = rest
        .iter()
        .position(|b| !b.is_ascii_digit())
        .unwrap_or(rest.len());
    if n == 0 {
        return None;
    }
    let mut value: u64 = 0;
    for b in &rest[..n] {
        let digit = char::from(*b).to_digit(10)?;
        value = value.checked_mul(10)?.checked_add(u64::from(digit))?;
    }
    Some(Number { value, end: at + n })
}

// The number that a whole text is.
fn whole(text: &[u8]) -> Option<u64> {
    let n = decimal(text, 0)?;
    (n.end == text.len()).then_some(n.value)
}

// The number that a field is; 0 where it is none.
pub fn size(line: &[u8], number: usize) -> usize {
    whole(field(line, number)).map_or(0, |n| n as usize)
}

// Whether the fields from a number on are these numbers.
pub fn are_decimals(line: &[u8], first: usize, found: &[u64]) -> bool {
    found.iter().enumerate().all(|(i, n)| whole(field(line, first.wrapping_add(i))) == Some(*n))
}
