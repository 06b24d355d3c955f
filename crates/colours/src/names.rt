// Names as they are printed, and their beginnings by the plain definition. A dash alone is a blank.
use std::fmt;

pub fn blank(name: &[u8]) -> bool {
    name == b"-".as_slice()
}

// By the bytes, with no key made.
pub fn begins(name: &[u8], s: &[u8]) -> bool {
    name.starts_with(s)
}

/// A name in brackets; a byte that is no printed ASCII in hexadecimal.
#[derive(Clone, Copy)]
pub struct Name<'a>(pub &'a [u8]);

impl<'a> fmt::Display for Name<'a> {
    fn fmt<W: fmt::Write>(&self, f: &mut fmt::Formatter<W>) -> fmt::Result {
        f.write_str("[")?;
        for b in self.0 {
            match *b {
                b' '..=b'~' => write!(f, "{}", char::from(*b))?,
                b => write!(f, "\\x{b:02x}")?,
            }
        }
        f.write_str("]")
    }
}
