// Why there is no type.
use std::error::Error;
use std::fmt;

/// The first of these that holds. A word's place is counted from 1.
#[derive(Clone, Copy, Debug, PartialEq, Eq, Hash)]
pub enum Reason {
    TooLong,
    NoLine,
    CarriageReturn,
    BadWord(usize),
    NotAdmitted,
}

impl fmt::Display for Reason {
    fn fmt<W: fmt::Write>(&self, f: &mut fmt::Formatter<W>) -> fmt::Result {
        match self {
            Reason::TooLong => write!(f, "standard input has more than 65,536 bytes"),
            Reason::NoLine => write!(f, "there is no first line that ends with a line feed"),
            Reason::CarriageReturn => write!(
                f,
                "the first line has a carriage return, as files from other systems do; a line ends with a line feed alone"
            ),
            Reason::BadWord(place) => write!(
                f,
                "word {place} of the first line is not 1 to 10 digits of a number below 2^32; words are parted by tabs"
            ),
            Reason::NotAdmitted => write!(f, "the words of the first line are no admitted type"),
        }
    }
}

impl Error for Reason {}
