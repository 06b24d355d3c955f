// Steps as numbers. After a refusal place and depth are those given, whatever they are; a value that a step does not give is 0.
ghost use Rattle.std.specs.Prelude.{◌≡◌};
ghost use Rattle.format.specs.Answer.{refused};
ghost use Rattle.format.specs.Refusals.{number_of as refusal_number, detail_of, answered};
ghost use Rattle.scalar.specs.Answers.{place_of};
ghost use Rattle.cursor.specs.Steps.{cursor_of, taken_of, moved_of, part_answer, wrote_of};
ghost use Rattle.chars.specs.Reader.{step_of as read_of};
ghost use Rattle.tuple.specs.StepNumbers.{cursor_at, step_of, moved_step, wrote_step, part_of, place_at, end_number, opening_length, reader_step, step_at, broken};

use crate::answers::{Length, Number};
use cursor::Cursor;
use format::Refusal;
use scalar::Place;

// A value, and the cursor behind it.
#[repr(C)]
#[derive(Clone, Copy)]
pub struct CursorStep {
    pub refusal: u32,
    pub detail: u64,
    pub value: u64,
    pub at: u64,
    pub depth: u64,
}

// Where a payload is, and the cursor behind its field: source 1 the key from `part` on, 2 the scratch buffer's beginning.
#[repr(C)]
#[derive(Clone, Copy)]
pub struct PartStep {
    pub refusal: u32,
    pub detail: u64,
    pub source: u32,
    pub part: u64,
    pub len: u64,
    pub at: u64,
    pub depth: u64,
}

// Given 1 a character's code; given 0 without a refusal the end. The reader's place and flag after the step.
#[repr(C)]
#[derive(Clone, Copy)]
pub struct CharStep {
    pub refusal: u32,
    pub detail: u64,
    pub given: u32,
    pub code: u32,
    pub at: u64,
    pub done: bool,
}

// A depth over 256 reads as 256.
fn narrow(at: usize, depth: usize) -> u32
    ensures { result ≡ (cursor_at at depth).depth }
{
    depth.min(256) as u32
}

pub fn cursor_at(at: usize, depth: usize) -> Cursor
    ensures { cursor_of result ≡ cursor_at at depth }
{
    Cursor {
        at,
        depth: narrow(at, depth),
    }
}

fn to_step(value: u64, c: Cursor) -> CursorStep
    ensures { result ≡ step_at value (cursor_of c) }
{
    CursorStep {
        refusal: 0,
        detail: 0,
        value,
        at: c.at as u64,
        depth: u64::from(c.depth),
    }
}

fn no_step(e: Refusal, at: usize, depth: usize) -> CursorStep
    ensures { result ≡ step_of at depth (refused (refusal_number e) (detail_of e)) }
{
    CursorStep {
        refusal: e.number(),
        detail: e.detail(),
        value: 0,
        at: at as u64,
        depth: depth as u64,
    }
}

// A number taken, or a union opened.
pub fn of_taken(answer: Result<(u64, Cursor), Refusal>, at: usize, depth: usize) -> CursorStep
    ensures { result ≡ step_of at depth (taken_of answer) }
{
    match answer {
        Ok((value, c)) => to_step(value, c),
        Err(e) => no_step(e, at, depth),
    }
}

// A step that gives no value, whether it reads or writes.
pub fn of_moved(answer: Result<Cursor, Refusal>, at: usize, depth: usize) -> CursorStep
    ensures moved { result ≡ moved_step at depth (moved_of answer) }
    ensures wrote { result ≡ wrote_step at depth (wrote_of answer) }
{
    match answer {
        Ok(c) => to_step(0, c),
        Err(e) => no_step(e, at, depth),
    }
}

// A payload's place, and the cursor behind its field.
fn to_part(place: Place, c: Cursor) -> PartStep
    ensures { result ≡ place_at (place_of place) (cursor_of c) }
{
    let (source, part, len) = match place {
        Place::InKey { at, len } => (1, at, len),
        Place::InScratch { len } => (2, 0, len),
    };
    PartStep {
        refusal: 0,
        detail: 0,
        source,
        part: part as u64,
        len: len as u64,
        at: c.at as u64,
        depth: u64::from(c.depth),
    }
}

fn no_part(e: Refusal, at: usize, depth: usize) -> PartStep
    ensures { result ≡ part_of at depth (refused (refusal_number e) (detail_of e)) }
{
    PartStep {
        refusal: e.number(),
        detail: e.detail(),
        source: 0,
        part: 0,
        len: 0,
        at: at as u64,
        depth: depth as u64,
    }
}

// A payload taken.
pub fn of_part(answer: Result<(Place, Cursor), Refusal>, at: usize, depth: usize) -> PartStep
    ensures { result ≡ part_of at depth (part_answer answer) }
{
    match answer {
        Ok((place, c)) => to_part(place, c),
        Err(e) => no_part(e, at, depth),
    }
}

// Whether the open group ends.
impl From<Result<bool, Refusal>> for Number {
    ghost from_gives = { λ answer numbers. numbers ≡ end_number (answered answer) };

    fn from(answer: Result<bool, Refusal>) -> Number {
        match answer {
            Ok(ends) => Number {
                refusal: 0,
                detail: 0,
                value: u64::from(ends),
                used: 0,
            },
            Err(e) => Number {
                refusal: e.number(),
                detail: e.detail(),
                value: 0,
                used: 0,
            },
        }
    }
}

// Whether a reader opens: at place 0 of its bytes.
impl From<Result<(), Refusal>> for Length {
    ghost from_gives = { λ answer numbers. numbers ≡ opening_length answer };

    fn from(answer: Result<(), Refusal>) -> Length {
        match answer {
            Ok(()) => Length {
                refusal: 0,
                detail: 0,
                length: 0,
            },
            Err(e) => Length {
                refusal: e.number(),
                detail: e.detail(),
                length: 0,
            },
        }
    }
}

fn no_char(no: u32, detail: u64, at: usize, done: bool) -> CharStep
    ensures { result ≡ broken no detail at done }
{
    CharStep {
        refusal: no,
        detail,
        given: 0,
        code: 0,
        at: at as u64,
        done,
    }
}

// A step of the string reader, and its place and flag after it.
pub fn of_step(step: Result<Option<u32>, Refusal>, at: usize, done: bool) -> CharStep
    ensures { result ≡ reader_step (read_of step) at done }
{
    match step {
        Ok(Some(code)) => CharStep {
            refusal: 0,
            detail: 0,
            given: 1,
            code,
            at: at as u64,
            done,
        },
        Ok(None) => no_char(0, 0, at, done),
        Err(e) => no_char(e.number(), e.detail(), at, done),
    }
}
