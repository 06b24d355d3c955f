// Encoding and decoding whole values. An accepted encoding call shows the zero bytes of the pool, a refused one 0 (theorem `zeros_escaped`).
ghost use Rattle.format.specs.Calls.{encode_typed_call, encode_key_call, decode_typed_call, decode_key_call, check_key_call};
ghost use Rattle.format.specs.Zeros.{encode_typed_zeros, encode_key_zeros};
ghost use Rattle.tuple.specs.Numbers.{Encodes, Fills, Checks};

use crate::answers::{Encoded, Sheet};

pub fn tuple_encode_typed(ty: &[u32], words: &[u64], pool: &[u8], out: &mut [u8]) -> Encoded
    ensures { Encodes encode_typed_call encode_typed_zeros ty.now words.now pool.now out.old result out.new }
{
    Encoded::from(encode::encode_typed(ty, words, pool, out))
}

pub fn tuple_encode_key(ty: &[u32], words: &[u64], pool: &[u8], out: &mut [u8]) -> Encoded
    ensures { Encodes encode_key_call encode_key_zeros ty.now words.now pool.now out.old result out.new }
{
    Encoded::from(encode::encode_key(ty, words, pool, out))
}

pub fn tuple_decode_typed(ty: &[u32], bytes: &[u8], words: &mut [u64], pool: &mut [u8]) -> Sheet
    ensures { Fills (decode_typed_call ty.now bytes.now words.old pool.old) bytes.now result words.new pool.new }
{
    Sheet::from(decode::decode_typed(ty, bytes, words, pool))
}

pub fn tuple_decode_key(ty: &[u32], bytes: &[u8], words: &mut [u64], pool: &mut [u8]) -> Sheet
    ensures { Fills (decode_key_call ty.now bytes.now words.old pool.old) bytes.now result words.new pool.new }
{
    Sheet::from(decode::decode_key(ty, bytes, words, pool))
}

pub fn tuple_check_key(ty: &[u32], bytes: &[u8]) -> Sheet
    ensures { Checks (check_key_call ty.now bytes.now) bytes.now result }
{
    Sheet::from(decode::check_key(ty, bytes))
}
