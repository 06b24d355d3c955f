// The string reader: a struct that holds the bytes behind the mark, a place and a finished flag, over covered functions on slice, place and flag. A new one gives the name
// that get_str decodes, or refuses: theorem scrolls, from the contracts of str_chars, next, get_str and payload.
#![tactic(auto)]

ghost use Rattle.std.specs.Prelude.{◌≡◌, false, ◌<◌, ◌+◌, length, get_or, drop};
ghost use Rattle.format.specs.Chars as chars;
ghost use Rattle.chars.specs.Reader.{step_of, stepped_of, Opens, Begins, Moves};

use format::Refusal;

// A reader of one stored string. Any place and any flag will do.
#[derive(Clone, Copy)]
pub struct StrChars<'a> {
    bytes: &'a [u8],
    at: usize,
    done: bool,
}

// A step, a character's code point or the end, and the reader's place and flag after it.
#[derive(Clone, Copy)]
pub struct Stepped {
    pub step: Result<Option<u32>, Refusal>,
    pub at: usize,
    pub done: bool,
}

// The end and a refusal finish the reader and leave its place.
fn finished(step: Result<Option<u32>, Refusal>, at: usize) -> Stepped
    ensures { stepped_of result ≡ chars.finished (step_of step) at }
{
    Stepped {
        step,
        at,
        done: true,
    }
}

// A character moves the reader behind its bytes.
fn gave(code: u32, next: usize) -> Stepped
    ensures { stepped_of result ≡ chars.gave code next }
{
    Stepped {
        step: Ok(Some(code)),
        at: next,
        done: false,
    }
}

// How many bytes a lead says that its character has; other leads are taken as width 1.
#[tactic(auto, unfolding(format::specs::Chars::lead_width))]
pub fn utf8_width(lead: u8) -> usize
    ensures { result ≡ chars.lead_width lead }
{
    match lead {
        0xC0..=0xDF => 2,
        0xE0..=0xEF => 3,
        0xF0..=0xF7 => 4,
        _ => 1,
    }
}

// At a 00: with FF behind it, it is the character 0, and else the end.
fn zero_step(s: &[u8], at: usize) -> Stepped
    requires { (at < length s.now) × (get_or s.now at 0 ≡ 0) }
    ensures { stepped_of result ≡ chars.step_at s.now at false }
{
    match s.get(at + 1) {
        Some(&next) if next == format::MARK_ESCAPE => gave(0, at + 2),
        _ => finished(Ok(None), at),
    }
}

// At another byte: enough bytes for the lead's width, then RFC 3629.
fn char_step(s: &[u8], at: usize) -> Stepped
    requires { (at < length s.now) × (get_or s.now at 0 ≡ 0 → ⊥) }
    ensures { stepped_of result ≡ chars.step_at s.now at false }
{
    let next = at + utf8_width(s[at]);
    let Some(sequence) = s.get(at..next) else {
        return finished(Err(Refusal::UnexpectedEof), at);
    };
    match text::char_at(s, at) {
        Some(c) if text::valid(sequence) => gave(c.code, next),
        _ => finished(Err(Refusal::BadString), at),
    }
}

// One step on a slice, a place and a flag: the work of `next`.
pub fn step_at(s: &[u8], at: usize, done: bool) -> Stepped
    ensures { stepped_of result ≡ chars.step_at s.now at done }
{
    if done {
        return finished(Ok(None), at);
    }
    match s.get(at) {
        None => finished(Err(Refusal::UnexpectedEof), at),
        Some(&format::MARK_TERM) => zero_step(s, at),
        Some(_) => char_step(s, at),
    }
}

// The mark of a string: the work of `str_chars`.
pub fn open_at(bytes: &[u8]) -> Result<(), Refusal>
    ensures { Opens bytes.now result }
{
    match bytes.first() {
        None => Err(Refusal::UnexpectedEof),
        Some(&format::MARK_STRING) => Ok(()),
        Some(&mark) => Err(Refusal::UnexpectedMark(mark)),
    }
}

// The bytes behind the mark.
pub fn contents(bytes: &[u8]) -> &[u8]
    ensures { result.now ≡ drop 1 bytes.now }
{
    match bytes {
        [] => bytes,
        [_, rest @ ..] => rest,
    }
}

// One step of a reader that is lent: what it gives, and the reader's place and flag moved.
pub fn next(r: &mut StrChars<'_>) -> Result<Option<u32>, Refusal>
    ensures { Moves r.old result r.new }
{
    let t = step_at(r.bytes, r.at, r.done);
    r.at = t.at;
    r.done = t.done;
    t.step
}

// Whether bytes begin as a string does, and a reader of it. A refused reader is finished.
#[derive(Clone, Copy)]
pub struct Opened<'a> {
    pub opened: Result<(), Refusal>,
    pub chars: StrChars<'a>,
}

// A reader of the string that bytes begin with, behind its mark.
pub fn str_chars(bytes: &[u8]) -> Opened<'_>
    ensures { Begins bytes.now result.opened result.chars.bytes.now result.chars.at result.chars.done }
{
    let opened = open_at(bytes);
    let chars = StrChars {
        bytes: contents(bytes),
        at: 0,
        done: opened.is_err(),
    };
    Opened { opened, chars }
}
