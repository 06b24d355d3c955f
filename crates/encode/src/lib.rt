// The encoding calls: a value under a type, as a whole or as a key.
#![tactic(auto)]

ghost use Rattle.std.specs.Prelude.{◌≡◌, eqb, get_or};
ghost use Rattle.format.specs.Calls.{encode_typed_call, encode_key_call};
ghost use Rattle.format.specs.Zeros.{encode_typed_zeros, encode_key_zeros};
ghost use Rattle.format.specs.Refusals.{answered};
ghost use Rattle.encode.specs.Encoded.{admitted, size_in, sized, key_of, Sheets, Accepted, PutKey, Encodes};

use fit::Fitted;
use format::Refusal;

// How many bytes were written, and how many zeros were escaped in them.
#[derive(Clone, Copy)]
pub struct Encoded {
    pub length: usize,
    pub zeros: usize,
}

// Are both sheets admitted? The type's is judged first.
fn admit(ty: &[u32], words: &[u64], pool: &[u8]) -> Result<(), Refusal>
    ensures { answered result ≡ admitted ty.now words.now pool.now }
{
    if !sheet::admit_type(ty) {
        return Err(Refusal::BadType);
    }
    if !sheet::admit_value(words, pool) {
        return Err(Refusal::BadValue);
    }
    Ok(())
}

// Encodes a value under its type at the buffer's beginning.
pub fn encode_typed(
    ty: &[u32],
    words: &[u64],
    pool: &[u8],
    out: &mut [u8],
) -> Result<Encoded, Refusal>
    ensures { Encodes encode_typed_call encode_typed_zeros ty.now words.now pool.now out.old result out.new }
{
    admit(ty, words, pool)?;
    let length = fit::fit_value(ty, words, pool, 0, 0, 0, 0, false)?.len;
    if out.len() < length {
        return Err(Refusal::NoRoom(length));
    }
    let put = write::put_value(words, pool, out, 0, 0, 0, 0);
    Ok(Encoded {
        length,
        zeros: put.zeros,
    })
}

// Is the top a record? Then its key is its fields bare.
fn top_bare(ty: &[u32]) -> bool
    ensures { result ≡ eqb (get_or ty.now 0 0) 5 }
{
    if ty.len() == 0 {
        return false;
    }
    ty[0] == format::KIND_RECORD
}

// Measures a key: a record's fields bare at depth 0, any other type as a whole.
fn fit_key(ty: &[u32], words: &[u64], pool: &[u8]) -> Result<Fitted, Refusal>
    requires { Sheets ty.now words.now pool.now }
    ensures { size_in result ≡ sized (key_of ty.now words.now pool.now) }
{
    if !top_bare(ty) {
        return fit::fit_value(ty, words, pool, 0, 0, 0, 0, false);
    }
    if words[0] != format::VALUE_RECORD {
        return Err(Refusal::TypeMismatch(format::KIND_RECORD));
    }
    let count = ty[1];
    if words[1] != u64::from(count) {
        return Err(Refusal::BadRecord);
    }
    fit::fit_fields(ty, words, pool, 2, 2, 0, count, 0, false)
}

// Writes a key that was measured and fits at the buffer's beginning, and returns how many zeros were escaped.
fn put_key(ty: &[u32], words: &[u64], pool: &[u8], out: &mut [u8]) -> usize
    requires { Accepted ty.now words.now pool.now }
    ensures { PutKey ty.now words.now pool.now out.old result out.new }
{
    if !top_bare(ty) {
        let whole = write::put_value(words, pool, out, 0, 0, 0, 0);
        return whole.zeros;
    }
    let count = words[1];
    let bare = write::put_fields(words, pool, out, 2, 0, 0, count, 0);
    bare.zeros
}

// Encodes a value as a key of its type at the buffer's beginning.
pub fn encode_key(
    ty: &[u32],
    words: &[u64],
    pool: &[u8],
    out: &mut [u8],
) -> Result<Encoded, Refusal>
    ensures { Encodes encode_key_call encode_key_zeros ty.now words.now pool.now out.old result out.new }
{
    admit(ty, words, pool)?;
    let len = fit_key(ty, words, pool)?.len;
    if format::MAX_KEY_BYTES < len {
        return Err(Refusal::KeyTooLong(len));
    }
    if out.len() < len {
        return Err(Refusal::NoRoom(len));
    }
    let zeros = put_key(ty, words, pool, out);
    Ok(Encoded { length: len, zeros })
}
