// The steps of the string reader, for C.
ghost use Rattle.std.specs.Prelude.{◌≡◌};
ghost use Rattle.format.specs.Chars.{opened, step_at};
ghost use Rattle.tuple.specs.StepNumbers.{opened_length, char_of};

use tuple::answers::Length;
use tuple::steps::CharStep;

#[unsafe(no_mangle)]
pub extern "C" fn tuple_str_chars(bytes: &[u8]) -> Length
    ensures { result ≡ opened_length (opened bytes.now) }
{
    tuple::reader::tuple_str_chars(bytes)
}

#[unsafe(no_mangle)]
pub extern "C" fn tuple_chars_next(bytes: &[u8], at: usize, done: bool) -> CharStep
    ensures { result ≡ char_of (step_at bytes.now at done) }
{
    tuple::reader::tuple_chars_next(bytes, at, done)
}
