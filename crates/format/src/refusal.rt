// Why a call says no.
ghost use Rattle.std.specs.Prelude.{◌≡◌};
ghost use Rattle.format.specs.Refusals.{number_of, detail_of};

use std::error::Error;
use std::fmt;

/// The refusals of document 01, in the order of their numbers, each with its detail where one is listed.
#[derive(Clone, Copy, Debug, PartialEq, Eq, Hash)]
pub enum Refusal {
    UnexpectedEof,
    UnexpectedMark(u8),
    UnexpectedTerminator,
    BadString,
    BadInteger,
    BadRecord,
    KeyTooLong(usize),
    FactRefPredicate(u64),
    ReservedFactId,
    UnknownDiscriminant(u64),
    TypeMismatch(u32),
    BadUnion(u64),
    Overflow,
    Underflow,
    BadType,
    BadValue,
    NoRoom(usize),
    NoField,
    NoBound,
    BadLine,
}

impl Refusal {
    pub fn number(self) -> u32
        ensures { result ≡ number_of self }
    {
        match self {
            Refusal::UnexpectedEof => 1,
            Refusal::UnexpectedMark(_) => 2,
            Refusal::UnexpectedTerminator => 3,
            Refusal::BadString => 4,
            Refusal::BadInteger => 5,
            Refusal::BadRecord => 6,
            Refusal::KeyTooLong(_) => 7,
            Refusal::FactRefPredicate(_) => 8,
            Refusal::ReservedFactId => 9,
            Refusal::UnknownDiscriminant(_) => 10,
            Refusal::TypeMismatch(_) => 11,
            Refusal::BadUnion(_) => 12,
            Refusal::Overflow => 13,
            Refusal::Underflow => 14,
            Refusal::BadType => 15,
            Refusal::BadValue => 16,
            Refusal::NoRoom(_) => 17,
            Refusal::NoField => 18,
            Refusal::NoBound => 19,
            Refusal::BadLine => 20,
        }
    }

    // 0 where document 01 lists none.
    pub fn detail(self) -> u64
        ensures { result ≡ detail_of self }
    {
        match self {
            Refusal::UnexpectedMark(mark) => u64::from(mark),
            Refusal::KeyTooLong(len) => len as u64,
            Refusal::FactRefPredicate(found) => found,
            Refusal::UnknownDiscriminant(tag) => tag,
            Refusal::TypeMismatch(kind) => u64::from(kind),
            Refusal::BadUnion(tag) => tag,
            Refusal::NoRoom(units) => units as u64,
            _ => 0,
        }
    }
}

impl fmt::Display for Refusal {
    fn fmt<W: fmt::Write>(&self, f: &mut fmt::Formatter<W>) -> fmt::Result {
        write!(f, "refused {} {}", self.number(), self.detail())
    }
}

impl Error for Refusal {}
