// Passing over the bare fields of a key by their types, keeping no value.
ghost use Rattle.std.specs.Prelude.{◌≤◌, ◌<◌, length};
ghost use Rattle.read.specs.Walk.{TypeAt, FieldsAt};
ghost use Rattle.key.specs.Passing.{PassesValue, PassesFields, Ends, Splits, Finds};

use format::Refusal;

// The next places in the type and in the key.
#[derive(Clone, Copy)]
pub struct Passed {
    pub at: usize,
    pub next: usize,
}

// The place of a field's type, and where the field starts and ends in the key.
#[derive(Clone, Copy)]
pub struct Field {
    pub at: usize,
    pub start: usize,
    pub end: usize,
}

// One value at depth 0.
pub fn pass_value(ty: &[u32], at: usize, bytes: &[u8], i: usize) -> Result<Passed, Refusal>
    requires typed { TypeAt ty.now at }
    requires inside { i ≤ length bytes.now }
    ensures { PassesValue ty.now at bytes.now i result }
{
    match read::walk_value(ty, at, bytes, i, 0, true) {
        Err(refused) => Err(refused.why),
        Ok(walked) => Ok(Passed {
            at: walked.at,
            next: walked.next,
        }),
    }
}

// The n bare fields whose types stand at a place of the sheet, from a place of the key on.
pub fn pass_fields(ty: &[u32], at: usize, n: u32, bytes: &[u8], i: usize) -> Result<Passed, Refusal>
    requires typed { FieldsAt ty.now at n }
    requires inside { i ≤ length bytes.now }
    ensures { PassesFields ty.now at n bytes.now i result }
{
    match read::walk_fields(ty, at, n, bytes, i, 0, true) {
        Err(refused) => Err(refused.why),
        Ok(walked) => Ok(Passed {
            at: walked.at,
            next: walked.next,
        }),
    }
}

// The last n fields of a key, with nothing left over. The end of their types is not asked for.
pub fn pass_rest(ty: &[u32], at: usize, n: u32, bytes: &[u8], i: usize) -> Result<(), Refusal>
    requires typed { FieldsAt ty.now at n }
    requires inside { i ≤ length bytes.now }
    ensures { Ends ty.now at n bytes.now i result }
{
    match read::walk_fields(ty, at, n, bytes, i, 0, false) {
        Err(refused) => Err(refused.why),
        Ok(walked) => {
            if walked.next < bytes.len() {
                return Err(Refusal::UnexpectedMark(bytes[walked.next]));
            }
            Ok(())
        }
    }
}

// Where the first k of a key's n fields end, or what refuses the key.
pub fn split_key(ty: &[u32], n: u32, key: &[u8], k: u32) -> Result<usize, Refusal>
    requires typed { FieldsAt ty.now 2 n }
    requires inside { k ≤ n }
    ensures { Splits ty.now n key.now k result }
{
    let first = pass_fields(ty, 2, k, key, 0)?;
    pass_rest(ty, first.at, n - k, key, first.next)?;
    Ok(first.next)
}

// A field of a key of n fields, where the whole key is good.
pub fn find_field(ty: &[u32], n: u32, key: &[u8], k: u32) -> Result<Field, Refusal>
    requires typed { FieldsAt ty.now 2 n }
    requires inside { k < n }
    ensures { Finds ty.now n key.now k result }
{
    let first = pass_fields(ty, 2, k, key, 0)?;
    let own = pass_value(ty, first.at, key, first.next)?;
    pass_rest(ty, own.at, n - k - 1, key, own.next)?;
    Ok(Field {
        at: first.at,
        start: first.next,
        end: own.next,
    })
}
