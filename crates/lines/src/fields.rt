// A line's fields, parted by single spaces.
ghost use Rattle.std.specs.Prelude.{◌+◌, ◌-◌, ◌≤◌, length};

// The place of the first such byte from a place on; the end where there is none.
pub fn find(text: &[u8], at: usize, byte: u8) -> usize
    ensures { (result ≤ length text.now) × (at ≤ result + (at - length text.now)) }
{
    match text.get(at..) {
        Some(rest) => at + rest.iter().position(|b| *b == byte).unwrap_or(rest.len()),
        None => text.len(),
    }
}

// The field of a number, counted from 0; empty where the line has fewer.
pub fn field(line: &[u8], number: usize) -> &[u8] {
    line.split(|b| *b == b' ').nth(number).unwrap_or(&[])
}

// Which field of a list is this name; past its last field where none is.
pub fn place_of(list: &[u8], name: &[u8]) -> usize {
    (0..list.len())
        .find(|i| field(list, *i) == name)
        .unwrap_or(list.len())
}
