// References to facts: 51 and eight bytes, high first. A predicate and a sequence share its 64 bits.
ghost use Rattle.std.specs.Prelude.{◌≡◌, ◌+◌, ◌≤◌, length};
ghost use Rattle.format.specs.Scalar.{ref_bytes, sequence_of, predicate_of};
ghost use Rattle.format.specs.Encode.{fits_ref};
ghost use Rattle.format.specs.Fields.{put};
ghost use Rattle.scalar.specs.Answers.{got_int, get_fact_id_call, judged_of};

use crate::ints;
use crate::marks::expect_mark;
use crate::taken::Taken;
use format::Refusal;

// A reference's sequence.
pub fn sequence_of(raw: u64) -> u64
    ensures { result ≡ sequence_of raw }
{
    raw % format::SEQUENCES
}

// A reference's predicate.
pub fn predicate_of(raw: u64) -> u64
    ensures { result ≡ predicate_of raw }
{
    raw / format::SEQUENCES
}

// Judges a reference under a declared predicate: its sequence, then its predicate.
pub fn judge(predicate: u32, raw: u64) -> Result<(), Refusal>
    ensures { judged_of result ≡ fits_ref predicate raw }
{
    if sequence_of(raw) == 0 {
        return Err(Refusal::ReservedFactId);
    }
    let found = predicate_of(raw);
    if found != u64::from(predicate) {
        return Err(Refusal::FactRefPredicate(found));
    }
    Ok(())
}

// Writes a reference from a place on, and returns the place behind it.
pub fn write_ref(buf: &mut [u8], at: usize, raw: u64) -> usize
    requires { at + length (ref_bytes raw) ≤ length buf.old }
    ensures { (result ≡ at + length (ref_bytes raw)) × (buf.new ≡ put buf.old at (ref_bytes raw)) }
{
    ints::write_marked(buf, at, format::MARK_FACT_REF, 8, raw)
}

// A reference as a field by itself.
pub fn fact_ref_bytes(raw: u64) -> [u8; 9]
    ensures { result ≡ ref_bytes raw }
{
    let mut bytes = [0u8; format::FACT_REF_FIELD_LEN];
    write_ref(&mut bytes, 0, raw);
    bytes
}

// Reads a reference where no type is at hand: only its sequence is checked.
pub fn get_fact_id(bytes: &[u8]) -> Result<Taken<u64>, Refusal>
    ensures { got_int result ≡ get_fact_id_call bytes.now }
{
    expect_mark(bytes, format::MARK_FACT_REF)?;
    if bytes.len() < format::FACT_REF_FIELD_LEN {
        return Err(Refusal::UnexpectedEof);
    }
    let raw = ints::read_number(&bytes[1..], 8);
    let sequence = sequence_of(raw);
    if sequence == 0 {
        return Err(Refusal::ReservedFactId);
    }
    Ok(Taken {
        value: raw,
        used: format::FACT_REF_FIELD_LEN,
    })
}
