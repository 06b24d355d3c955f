// Answers as numbers. Refusal 0 says that a call was accepted; what an answer does not give is 0.
ghost use Rattle.std.specs.Prelude.{◌≡◌};
ghost use Rattle.format.specs.Answer.{refused};
ghost use Rattle.format.specs.Refusals.{number_of as refusal_number, detail_of, answered};
ghost use Rattle.encode.specs.Encoded as encoding;
ghost use Rattle.scalar.specs.Answers.{place_of as place_in, got_int, got_part};
ghost use Rattle.order.specs.Compare.{compared_of};
ghost use Rattle.key.specs.Keys.{bounded_of};
ghost use Rattle.tuple.specs.Numbers.{length_of, encoded_of, sheet_of, ends_of, order_of, number_of, place_of, part_of, decoded_numbers, checked_numbers};

use decode::{Decoded, Refused};
use format::Refusal;
use scalar::{Place, Taken};
use std::cmp::Ordering;

// Bytes written, an end, a place or a used length.
#[repr(C)]
#[derive(Clone, Copy)]
pub struct Length {
    pub refusal: u32,
    pub detail: u64,
    pub length: u64,
}

// Bytes written by an encoding call, and the zeros escaped in them.
#[repr(C)]
#[derive(Clone, Copy)]
pub struct Encoded {
    pub refusal: u32,
    pub detail: u64,
    pub length: u64,
    pub zeros: u64,
}

// Values begun, and the words and pool bytes written.
#[repr(C)]
#[derive(Clone, Copy)]
pub struct Sheet {
    pub refusal: u32,
    pub detail: u64,
    pub begun: u64,
    pub words: u64,
    pub pool: u64,
}

// The lengths of a lower and an upper end.
#[repr(C)]
#[derive(Clone, Copy)]
pub struct Ends {
    pub refusal: u32,
    pub detail: u64,
    pub lower: u64,
    pub upper: u64,
}

// -1 less, 0 equal, 1 greater.
#[repr(C)]
#[derive(Clone, Copy)]
pub struct Order {
    pub refusal: u32,
    pub detail: u64,
    pub order: i32,
}

// An integer and how many bytes it took.
#[repr(C)]
#[derive(Clone, Copy)]
pub struct Number {
    pub refusal: u32,
    pub detail: u64,
    pub value: u64,
    pub used: u64,
}

// Where a payload is: source 1 the key from a place on, 2 the scratch buffer's beginning.
#[repr(C)]
#[derive(Clone, Copy)]
pub struct Part {
    pub refusal: u32,
    pub detail: u64,
    pub source: u32,
    pub at: u64,
    pub len: u64,
    pub used: u64,
}

impl From<Result<usize, Refusal>> for Length {
    ghost from_gives = { λ answer numbers. numbers ≡ length_of (answered answer) };

    fn from(answer: Result<usize, Refusal>) -> Length {
        match answer {
            Ok(n) => Length {
                refusal: 0,
                detail: 0,
                length: n as u64,
            },
            Err(e) => Length {
                refusal: e.number(),
                detail: e.detail(),
                length: 0,
            },
        }
    }
}

impl From<Result<encode::Encoded, Refusal>> for Encoded {
    ghost from_gives = { λ answer numbers. numbers ≡ encoded_of (encoding.length_in answer) (encoding.zeros_in answer) };

    fn from(answer: Result<encode::Encoded, Refusal>) -> Encoded {
        match answer {
            Ok(done) => Encoded {
                refusal: 0,
                detail: 0,
                length: done.length as u64,
                zeros: done.zeros as u64,
            },
            Err(e) => Encoded {
                refusal: e.number(),
                detail: e.detail(),
                length: 0,
                zeros: 0,
            },
        }
    }
}

fn refused_sheet(e: Refused) -> Sheet
    ensures { result ≡ sheet_of (refused (refusal_number e.why) (detail_of e.why)) e.begun }
{
    Sheet {
        refusal: e.why.number(),
        detail: e.why.detail(),
        begun: e.begun as u64,
        words: 0,
        pool: 0,
    }
}

impl From<Result<Decoded, Refused>> for Sheet {
    ghost from_gives = { λ answer numbers. numbers ≡ decoded_numbers answer };

    fn from(answer: Result<Decoded, Refused>) -> Sheet {
        match answer {
            Ok(done) => Sheet {
                refusal: 0,
                detail: 0,
                begun: done.begun as u64,
                words: done.words as u64,
                pool: done.pool as u64,
            },
            Err(e) => refused_sheet(e),
        }
    }
}

// Of a call that keeps no value.
impl From<Result<usize, Refused>> for Sheet {
    ghost from_gives = { λ answer numbers. numbers ≡ checked_numbers answer };

    fn from(answer: Result<usize, Refused>) -> Sheet {
        match answer {
            Ok(begun) => Sheet {
                refusal: 0,
                detail: 0,
                begun: begun as u64,
                words: 0,
                pool: 0,
            },
            Err(e) => refused_sheet(e),
        }
    }
}

impl From<Result<key::Ends, Refusal>> for Ends {
    ghost from_gives = { λ answer numbers. numbers ≡ ends_of (bounded_of answer) };

    fn from(answer: Result<key::Ends, Refusal>) -> Ends {
        match answer {
            Ok(ends) => Ends {
                refusal: 0,
                detail: 0,
                lower: ends.lower as u64,
                upper: ends.upper as u64,
            },
            Err(e) => Ends {
                refusal: e.number(),
                detail: e.detail(),
                lower: 0,
                upper: 0,
            },
        }
    }
}

impl From<Result<Ordering, Refusal>> for Order {
    ghost from_gives = { λ answer numbers. numbers ≡ order_of (compared_of answer) };

    fn from(answer: Result<Ordering, Refusal>) -> Order {
        match answer {
            Ok(ordering) => Order {
                refusal: 0,
                detail: 0,
                order: match ordering {
                    Ordering::Less => -1,
                    Ordering::Equal => 0,
                    Ordering::Greater => 1,
                },
            },
            Err(e) => Order {
                refusal: e.number(),
                detail: e.detail(),
                order: 0,
            },
        }
    }
}

impl From<Result<Taken<u64>, Refusal>> for Number {
    ghost from_gives = { λ answer numbers. numbers ≡ number_of (got_int answer) };

    fn from(answer: Result<Taken<u64>, Refusal>) -> Number {
        match answer {
            Ok(taken) => Number {
                refusal: 0,
                detail: 0,
                value: taken.value,
                used: taken.used as u64,
            },
            Err(e) => Number {
                refusal: e.number(),
                detail: e.detail(),
                value: 0,
                used: 0,
            },
        }
    }
}

// The part of a payload at a place, whose field took so many bytes.
fn part_at(place: Place, used: usize) -> Part
    ensures { result ≡ place_of (place_in place) used }
{
    match place {
        Place::InKey { at, len } => Part {
            refusal: 0,
            detail: 0,
            source: 1,
            at: at as u64,
            len: len as u64,
            used: used as u64,
        },
        Place::InScratch { len } => Part {
            refusal: 0,
            detail: 0,
            source: 2,
            at: 0,
            len: len as u64,
            used: used as u64,
        },
    }
}

impl From<Result<Taken<Place>, Refusal>> for Part {
    ghost from_gives = { λ answer numbers. numbers ≡ part_of (got_part answer) };

    fn from(answer: Result<Taken<Place>, Refusal>) -> Part {
        match answer {
            Ok(taken) => part_at(taken.value, taken.used),
            Err(e) => Part {
                refusal: e.number(),
                detail: e.detail(),
                source: 0,
                at: 0,
                len: 0,
                used: 0,
            },
        }
    }
}
