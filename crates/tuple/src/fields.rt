// Single fields read and put.
ghost use Rattle.std.specs.Prelude.{◌≡◌};
ghost use Rattle.format.specs.Fields.{get_i64_call, get_u64_call, get_str_call, get_bytes_call, put_i64_call, put_u64_call, put_str_call, put_bytes_call, put_fact_id_call};
ghost use Rattle.tuple.specs.Numbers.{number_of, Writes, Hands};

use crate::answers::{Length, Number, Part};

pub fn tuple_get_i64(bytes: &[u8]) -> Number
    ensures { result ≡ number_of (get_i64_call bytes.now) }
{
    Number::from(scalar::get_i64(bytes))
}

pub fn tuple_get_u64(bytes: &[u8]) -> Number
    ensures { result ≡ number_of (get_u64_call bytes.now) }
{
    Number::from(scalar::get_u64(bytes))
}

pub fn tuple_get_str(bytes: &[u8], scratch: &mut [u8]) -> Part
    ensures { Hands (get_str_call bytes.now scratch.old) result scratch.new }
{
    Part::from(scalar::get_str(bytes, scratch))
}

pub fn tuple_get_bytes(bytes: &[u8], scratch: &mut [u8]) -> Part
    ensures { Hands (get_bytes_call bytes.now scratch.old) result scratch.new }
{
    Part::from(scalar::get_bytes(bytes, scratch))
}

pub fn tuple_put_i64(out: &mut [u8], at: usize, word: u64) -> Length
    ensures { Writes (put_i64_call out.old at word) result out.new }
{
    Length::from(scalar::put_i64(out, at, word))
}

pub fn tuple_put_u64(out: &mut [u8], at: usize, number: u64) -> Length
    ensures { Writes (put_u64_call out.old at number) result out.new }
{
    Length::from(scalar::put_u64(out, at, number))
}

pub fn tuple_put_str(out: &mut [u8], at: usize, text: &[u8]) -> Length
    ensures { Writes (put_str_call out.old at text.now) result out.new }
{
    Length::from(scalar::put_str(out, at, text))
}

pub fn tuple_put_bytes(out: &mut [u8], at: usize, payload: &[u8]) -> Length
    ensures { Writes (put_bytes_call out.old at payload.now) result out.new }
{
    Length::from(scalar::put_bytes(out, at, payload))
}

pub fn tuple_put_fact_id(out: &mut [u8], at: usize, raw: u64) -> Length
    ensures { Writes (put_fact_id_call out.old at raw) result out.new }
{
    Length::from(scalar::put_fact_id(out, at, raw))
}
