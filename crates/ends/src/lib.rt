// Ends of ranges of keys: strinc and above_field.
#![tactic(auto)]

ghost use Rattle.format.specs.Refusals.{Leaves};
ghost use Rattle.format.specs.Calls.{strinc_call, above_field_call};
ghost use Rattle.ends.specs.Ends.{Trims};

use format::Refusal;

// How many bytes a prefix has without its trailing FF. Most have none, and are done before the loop.
pub fn trimmed_len(prefix: &[u8]) -> usize
    ensures { Trims prefix.now result }
{
    let mut n = prefix.len();
    if n == 0 {
        return 0;
    }
    if prefix[n - 1] != format::MARK_ESCAPE {
        return n;
    }
    while 0 < n {
        let last = n - 1;
        if prefix[last] != format::MARK_ESCAPE {
            return n;
        }
        n = last;
    }
    n
}

// An end above every string that begins with the prefix: trailing FF dropped, one added to the last byte left.
pub fn strinc(prefix: &[u8], out: &mut [u8]) -> Result<usize, Refusal>
    ensures { Leaves (strinc_call prefix.now out.old) result out.new }
{
    let n = trimmed_len(prefix);
    if n == 0 {
        return Err(Refusal::NoBound);
    }
    if out.len() < n {
        return Err(Refusal::NoRoom(n));
    }
    let last = n - 1;
    blocks::copy_front(out, prefix, last);
    out[last] = prefix[last] + 1;
    Ok(n)
}

// The end above a field's value: FF behind the key through that field.
pub fn above_field(key: &[u8], out: &mut [u8]) -> Result<usize, Refusal>
    ensures { Leaves (above_field_call key.now out.old) result out.new }
{
    let n = key.len();
    let end = n + 1;
    if out.len() < end {
        return Err(Refusal::NoRoom(end));
    }
    blocks::copy_front(out, key, n);
    out[n] = format::MARK_ESCAPE;
    Ok(end)
}
