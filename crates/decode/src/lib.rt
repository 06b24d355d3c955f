// Decoding whole keys into lent sheets: first measured by the type, then filled by the marks alone, so that a refused call writes nothing.
#![tactic(auto)]

ghost use Rattle.std.specs.Prelude.{◌≡◌, true};
ghost use Rattle.format.specs.TypeSheet.{is_some, type_of};
ghost use Rattle.format.specs.Calls.{decode_typed_call, decode_key_call, check_key_call};
ghost use Rattle.read.specs.Walk.{TypeAt};
ghost use Rattle.decode.specs.Answers.{Decodes, ChecksKey, Top, TopIs, TopWalk, Measures, TopFilled, Fills};

use format::Refusal;
pub use read::Refused;
use read::Walked;

// How many words and pool bytes were written, and the values begun.
#[derive(Clone, Copy)]
pub struct Decoded {
    pub words: usize,
    pub pool: usize,
    pub begun: usize,
}

// Are the fields of the top bare? Those of a key are, where its type is a record.
fn top_bare(ty: &[u32], key: bool) -> bool
    requires { TypeAt ty.now 0 }
    ensures { TopIs key ty.now result }
{
    key && ty[0] == format::KIND_RECORD
}

// A whole value, with what is left over.
fn walk(ty: &[u32], bytes: &[u8], bare: bool) -> Result<Walked, Refused>
    requires { Top ty.now bare }
    ensures { TopWalk bare ty.now bytes.now result }
{
    if bare {
        read::walk_bare(ty, bytes)
    } else {
        read::walk_value(ty, 0, bytes, 0, 0, false)
    }
}

// How many words and pool bytes the value takes, or the refusal.
fn measure(ty: &[u32], bytes: &[u8], bare: bool) -> Result<Decoded, Refused>
    requires { Top ty.now bare }
    ensures { Measures bare ty.now bytes.now result }
{
    let walked = walk(ty, bytes, bare)?;
    let begun = walked.begun;
    if walked.next < bytes.len() {
        return Err(Refused {
            why: Refusal::UnexpectedMark(bytes[walked.next]),
            begun,
        });
    }
    Ok(Decoded {
        words: walked.words,
        pool: walked.pool,
        begun,
    })
}

// Puts the value that the bytes hold whole on the sheet, where it has room. It goes by `bare`, as measuring does: a closure for each would be two that must agree.
fn put_sheet(bytes: &[u8], bare: bool, words: &mut [u64], pool: &mut [u8])
    ensures { TopFilled bare bytes.now words.old pool.old words.new pool.new }
{
    if bare {
        fill::fill_bare(bytes, words, pool);
        return;
    }
    fill::fill_value(bytes, words, pool);
}

// Measures, asks for room, and fills.
fn decode(
    ty: &[u32],
    bytes: &[u8],
    key: bool,
    words: &mut [u64],
    pool: &mut [u8],
) -> Result<Decoded, Refused>
    ensures { Fills key ty.now bytes.now words.old pool.old result words.new pool.new }
{
    if !sheet::admit_type(ty) {
        return Err(Refused {
            why: Refusal::BadType,
            begun: 0,
        });
    }
    let bare = top_bare(ty, key);
    let size = measure(ty, bytes, bare)?;
    let begun = size.begun;
    if words.len() < size.words {
        return Err(Refused {
            why: Refusal::NoRoom(size.words),
            begun,
        });
    }
    if pool.len() < size.pool {
        return Err(Refused {
            why: Refusal::NoRoom(size.pool),
            begun,
        });
    }
    put_sheet(bytes, bare, words, pool);
    Ok(size)
}

// Decodes a value of a type: a top record is a group.
pub fn decode_typed(
    ty: &[u32],
    bytes: &[u8],
    words: &mut [u64],
    pool: &mut [u8],
) -> Result<Decoded, Refused>
    ensures { Decodes (decode_typed_call ty.now bytes.now words.old pool.old) bytes.now result words.new pool.new }
{
    decode(ty, bytes, false, words, pool)
}

// Decodes a key: a top record's fields are bare.
pub fn decode_key(
    ty: &[u32],
    bytes: &[u8],
    words: &mut [u64],
    pool: &mut [u8],
) -> Result<Decoded, Refused>
    ensures { Decodes (decode_key_call ty.now bytes.now words.old pool.old) bytes.now result words.new pool.new }
{
    decode(ty, bytes, true, words, pool)
}

// The values begun by a key that decodes, or the refusal. It keeps no value, so it is never NoRoom; of a type that is admitted, so that many keys of one type
// admit it once.
pub fn check_admitted(ty: &[u32], bytes: &[u8]) -> Result<usize, Refused>
    requires { is_some (type_of ty.now) ≡ true }
    ensures { ChecksKey (check_key_call ty.now bytes.now) bytes.now result }
{
    let size = measure(ty, bytes, top_bare(ty, true))?;
    Ok(size.begun)
}

// The same of any words.
pub fn check_key(ty: &[u32], bytes: &[u8]) -> Result<usize, Refused>
    ensures { ChecksKey (check_key_call ty.now bytes.now) bytes.now result }
{
    if !sheet::admit_type(ty) {
        return Err(Refused {
            why: Refusal::BadType,
            begun: 0,
        });
    }
    check_admitted(ty, bytes)
}
