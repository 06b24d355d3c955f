// Records: what a call asks of a record type's sheet and of a record sheet before it reads further.
ghost use Rattle.std.specs.Prelude.{◌≡◌};
ghost use Rattle.format.specs.ValueSheet.{value_of};
ghost use Rattle.format.specs.Refusals.{answered};
ghost use Rattle.key.specs.Records.{count_in, is_record, FirstWords, has_next};

use format::Refusal;

// How many fields the record type of the sheet has.
pub fn field_count(ty: &[u32]) -> Result<u32, Refusal>
    ensures { answered result ≡ count_in ty.now }
{
    if !sheet::admit_type(ty) {
        return Err(Refusal::BadType);
    }
    if ty[0] != format::KIND_RECORD {
        return Err(Refusal::NoField);
    }
    Ok(ty[1])
}

// Is the sheet admitted, and a record? Then its second word is how many fields it has.
pub fn admit_record(words: &[u64], pool: &[u8]) -> bool
    ensures { result ≡ is_record (value_of words.now pool.now) }
{
    sheet::admit_value(words, pool) && words[0] == format::VALUE_RECORD
}

// Is the type a record with a field behind the first k, k being the record sheet's count?
pub fn has_next(ty: &[u32], words: &[u64]) -> bool
    requires { FirstWords ty.now words.now }
    ensures { result ≡ has_next ty.now words.now }
{
    ty[0] == format::KIND_RECORD && words[1] < u64::from(ty[1])
}
