// The string reader: the bytes behind the mark, a place and a finished flag, all held by the caller. What its steps give beside tuple_get_str's answer to the same
// bytes is theorem scrolls, which has it from these contracts and from theorem names of chars.
ghost use Rattle.std.specs.Prelude.{◌≡◌};
ghost use Rattle.format.specs.Chars.{opened, step_at};
ghost use Rattle.tuple.specs.StepNumbers.{opened_length, char_of};

use crate::answers::Length;
use crate::steps;
use crate::steps::CharStep;

pub fn tuple_str_chars(bytes: &[u8]) -> Length
    ensures { result ≡ opened_length (opened bytes.now) }
{
    Length::from(chars::open_at(bytes))
}

pub fn tuple_chars_next(bytes: &[u8], at: usize, done: bool) -> CharStep
    ensures { result ≡ char_of (step_at bytes.now at done) }
{
    let t = chars::step_at(bytes, at, done);
    let step = t.step;
    steps::of_step(step, t.at, t.done)
}
