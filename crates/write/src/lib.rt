// The encoder's writing walk. It goes by the value and its depth alone: a value's type has no part in its bytes. The zeros that runs escape are passed upward.
#![tactic(auto)]

ghost use Rattle.std.specs.Prelude.{◌≡◌, [], ◌∷◌, ◌≤◌, leb, length};
ghost use Rattle.format.specs.Scalar.{int_bytes, ref_bytes, tag_bytes, escaped};
ghost use Rattle.format.specs.Encode.{null_bytes};
ghost use Rattle.format.specs.Zeros.{zeros};
ghost use Rattle.format.proofs.PlainLaws.{plain_pool, plain_bytes};
ghost use Rattle.write.specs.Write.{standing, group_count, group_bytes, Stored, Counted, Ready, WroteValue, WroteFields};

use scalar::runs::Written;

// Where the walk stands in the words, the pool and the buffer, and how many zeros were escaped on the way there.
#[derive(Clone, Copy)]
pub struct Put {
    pub word: usize,
    pub pool: usize,
    pub at: usize,
    pub zeros: usize,
}

// One byte, where there is room.
fn put_byte(out: &mut [u8], at: usize, b: u8) -> usize
    requires { at ≤ length out.old }
    ensures { Stored out.old at (b ∷ []) result out.new }
{
    if at < out.len() {
        out[at] = b;
        return at + 1;
    }
    at
}

// A null, where there is room: inside a group with its escape.
fn put_null(out: &mut [u8], at: usize, depth: usize) -> usize
    requires { at ≤ length out.old }
    ensures { Stored out.old at (null_bytes depth) result out.new }
{
    let end = put_byte(out, at, format::MARK_NULL);
    if 0 < depth {
        return put_byte(out, end, format::MARK_ESCAPE);
    }
    end
}

// An integer, where there is room.
fn put_int(out: &mut [u8], at: usize, w: u64) -> usize
    requires { at ≤ length out.old }
    ensures { Stored out.old at (int_bytes w) result out.new }
{
    if out.len() - at < scalar::ints::int_len(w) {
        return at;
    }
    scalar::ints::write_i64(out, at, w)
}

// A reference, where there is room.
fn put_ref(out: &mut [u8], at: usize, raw: u64) -> usize
    requires { at ≤ length out.old }
    ensures { Stored out.old at (ref_bytes raw) result out.new }
{
    if out.len() - at < format::FACT_REF_FIELD_LEN {
        return at;
    }
    scalar::refs::write_ref(out, at, raw)
}

// Has the run of a payload no more than n bytes? Its zeros are counted only where twice the payload would not fit.
fn run_fits(payload: &[u8], n: usize) -> bool
    ensures { result ≡ leb (length (escaped payload.now)) n }
{
    payload.len() < n / 2 || scalar::runs::escaped_len(payload) <= n
}

// A mark and the run of a payload, where there is room.
fn put_run(out: &mut [u8], at: usize, mark: u8, payload: &[u8]) -> Written
    requires { at ≤ length out.old }
    ensures { Counted out.old at (mark ∷ escaped payload.now) (zeros payload.now) result out.new }
{
    let end = put_byte(out, at, mark);
    if run_fits(payload, out.len() - end) {
        return scalar::runs::write_escaped(out, end, payload);
    }
    Written { end, zeros: 0 }
}

// A union's tag, where there is room.
fn put_tag(out: &mut [u8], at: usize, disc: u32) -> usize
    requires { at ≤ length out.old }
    ensures { Stored out.old at (tag_bytes disc) result out.new }
{
    let tag = scalar::UnionTag::new(disc);
    let n = tag.len;
    if out.len() - at < n {
        return at;
    }
    let bytes = tag.bytes;
    blocks::copy_to(out, at, &bytes, 0, n);
    at + n
}

// How many bytes of the pool a value takes that is no group: a run's length.
fn run_of(kind: u64, x: u64) -> usize
    ensures { result ≡ plain_pool kind x }
{
    match kind {
        format::VALUE_INT => 0,
        format::VALUE_FACT => 0,
        _ => x as usize,
    }
}

// A value that is no group, of a kind and with the second word x, by its bytes of the pool.
fn put_scalar(out: &mut [u8], at: usize, kind: u64, x: u64, payload: &[u8]) -> Written
    requires { (at ≤ length out.old) × (length payload.now ≡ plain_pool kind x) }
    ensures { Counted out.old at (plain_bytes kind x payload.now) (zeros payload.now) result out.new }
{
    let end = match kind {
        format::VALUE_INT => put_int(out, at, x),
        format::VALUE_FACT => put_ref(out, at, x),
        format::VALUE_STR => return put_run(out, at, format::MARK_STRING, payload),
        _ => return put_run(out, at, format::MARK_BYTES, payload),
    };
    Written { end, zeros: 0 }
}

// How many values a group has: a union one.
fn count_of(kind: u64, x: u64) -> u64
    ensures { result ≡ group_count kind x }
{
    if kind == format::VALUE_RECORD { x } else { 1 }
}

// What a group begins with: a record's mark, or a union's tag.
fn open_group(out: &mut [u8], at: usize, kind: u64, x: u64) -> usize
    requires { at ≤ length out.old }
    ensures { Stored out.old at (group_bytes kind x) result out.new }
{
    if kind == format::VALUE_RECORD {
        return put_byte(out, at, format::MARK_RECORD);
    }
    if x < format::DISCRIMINANTS {
        return put_tag(out, at, x as u32);
    }
    at
}

// A value that stands at a depth. Its kind says how many words it has: a blank one, so it may be the sheet's last word.
#[cycle(puts)]
pub fn put_value(
    words: &[u64],
    pool: &[u8],
    out: &mut [u8],
    word: usize,
    from: usize,
    at: usize,
    depth: usize,
) -> Put
    requires { Ready words.now pool.now out.old (standing word from at 0) depth }
    ensures { WroteValue words.now pool.now (standing word from at 0) depth out.old result out.new }
{
    let here = Put {
        word,
        pool: from,
        at,
        zeros: 0,
    };
    if words.len() <= word {
        return here;
    }
    let kind = words[word];
    if kind == format::VALUE_NULL {
        return Put {
            word: word + 1,
            at: put_null(out, at, depth),
            ..here
        };
    }
    if words.len() - word < 2 {
        return here;
    }
    let x = words[word + 1];
    let next = word + 2;
    if kind < format::VALUE_RECORD {
        let n = run_of(kind, x);
        if pool.len() - from < n {
            return here;
        }
        let behind = from + n;
        let written = put_scalar(out, at, kind, x, &pool[from..behind]);
        return Put {
            word: next,
            pool: behind,
            at: written.end,
            zeros: written.zeros,
        };
    }
    let inner = open_group(out, at, kind, x);
    let count = count_of(kind, x);
    let r = put_fields(words, pool, out, next, from, inner, count, depth + 1);
    let end = put_byte(out, r.at, format::MARK_TERM);
    Put { at: end, ..r }
}

// So many values in a row that stand at a depth: a record's fields, or a union's payload.
#[cycle(puts)]
pub fn put_fields(
    words: &[u64],
    pool: &[u8],
    out: &mut [u8],
    word: usize,
    from: usize,
    start: usize,
    count: u64,
    depth: usize,
) -> Put
    requires { Ready words.now pool.now out.old (standing word from start 0) depth }
    ensures { WroteFields words.now pool.now (standing word from start 0) count depth out.old result out.new }
{
    let mut row = Put {
        word,
        pool: from,
        at: start,
        zeros: 0,
    };
    for _done in 0..count {
        let r = put_value(words, pool, out, row.word, row.pool, row.at, depth);
        row = Put {
            zeros: row.zeros + r.zeros,
            ..r
        };
    }
    row
}
