// The encoder's measuring walk: over a type and a value, without a buffer. It finds every refusal, or where type and value end and how long the encoding is.
#![tactic(auto)]

ghost use Rattle.std.specs.Prelude.{◌≡◌, ◌+◌, ◌≤◌, ◌<◌, ◌^◌, length, get_or, Ok, Err};
ghost use Rattle.format.specs.ValueSheet.{max_value_words};
ghost use Rattle.format.specs.Encode.{fits_ref, in_union, null_bytes};
ghost use Rattle.format.specs.Refusals.{answered};
ghost use Rattle.format.proofs.PlainLaws.{plain_pool};
ghost use Rattle.fit.specs.Fit.{plain_place, answer_of, leaf_in, ref_in, Standing, StandingRow, Closed, FitValue, FitFields};

use format::Refusal;

// What fits: the places behind it in type, words and pool, and the length of its encoding.
#[derive(Clone, Copy)]
pub struct Fitted {
    pub at: usize,
    pub word: usize,
    pub pool: usize,
    pub len: usize,
}

// An Int, or a Str or Bytes with its bytes of the pool.
fn fit_leaf(pool: &[u8], kind: u32, x: u64, t: usize, w: usize, p: usize) -> Fitted
    requires { (t + 1 < 2 ^ 64) × (w + 2 < 2 ^ 64) × (p + plain_pool kind x ≤ length pool.now) × (length pool.now ≤ max_value_words) × (kind ≡ 4 → ⊥) }
    ensures { result ≡ leaf_in pool.now kind x t w p }
{
    if kind == format::KIND_INT {
        return Fitted {
            at: t + 1,
            word: w + 2,
            pool: p,
            len: scalar::ints::int_len(x),
        };
    }
    let end = p + x as usize;
    Fitted {
        at: t + 1,
        word: w + 2,
        pool: end,
        len: 1 + scalar::runs::escaped_len(&pool[p..end]),
    }
}

// A reference, judged.
fn fit_ref(predicate: u32, raw: u64, t: usize, w: usize, p: usize) -> Result<Fitted, Refusal>
    requires { (t + 2 < 2 ^ 64) × (w + 2 < 2 ^ 64) }
    ensures { answered result ≡ ref_in (fits_ref predicate raw) t w p }
{
    scalar::judge(predicate, raw)?;
    Ok(Fitted {
        at: t + 2,
        word: w + 2,
        pool: p,
        len: format::FACT_REF_FIELD_LEN,
    })
}

// What a union says no with, for what its payload was refused with: BadRecord and TypeMismatch are BadUnion there.
fn union_refusal(why: Refusal, tag: u64) -> Refusal
    ensures { answer_of (Err result) ≡ in_union tag (answer_of (Err why)) }
{
    match why {
        Refusal::BadRecord | Refusal::TypeMismatch(_) => Refusal::BadUnion(tag),
        _ => why,
    }
}

// What a union makes of its payload that fits: the end of its alternatives, where that is asked for, and its tag.
#[inline(always)] // as a call it costs a value of many unions 6 %
fn in_union(ty: &[u32], payload: Fitted, tag: u64, left: u32, asked: bool) -> Fitted
    requires { payload.len < 2 ^ 32 }
    ensures { Closed ty.now tag left asked (Ok payload) (Ok result) }
{
    Fitted {
        at: sheet::union_end(ty, payload.at, left, asked),
        len: payload.len + (2 + scalar::ints::uint_len(tag)),
        ..payload
    }
}

// A null's length: its mark, and inside a group an escape, so that it is no end.
fn null_len(depth: u32) -> usize
    ensures { result ≡ length (null_bytes depth) }
{
    if 0 < depth {
        return 2;
    }
    1
}

// The place of a type itself: behind word 7, where that stands before it.
fn plain_place(ty: &[u32], t: usize) -> usize
    requires { t < length ty.now }
    ensures { result ≡ plain_place ty.now t }
{
    if ty[t] == format::KIND_OPTIONAL {
        return t + 1;
    }
    t
}

// A value of another kind than the type itself; every Null is one. Null fits an optional type, as a blank; all else is refused with the kind of the type itself,
// never 7.
fn fit_other(
    ty: &[u32],
    words: &[u64],
    pool: &[u8],
    t: usize,
    w: usize,
    p: usize,
    depth: u32,
    asked: bool,
) -> Result<Fitted, Refusal>
    requires { Standing ty.now words.now pool.now t w p × (get_or words.now w 0 ≡ get_or ty.now (plain_place ty.now t) 0 → ⊥) }
    ensures { FitValue ty.now words.now pool.now t w p depth asked result }
{
    if ty[t] != format::KIND_OPTIONAL {
        return Err(Refusal::TypeMismatch(ty[t]));
    }
    if words[w] == format::VALUE_NULL {
        return Ok(Fitted {
            at: sheet::skip_type(ty, t, asked),
            word: w + 1,
            pool: p,
            len: null_len(depth),
        });
    }
    Err(Refusal::TypeMismatch(ty[t + 1]))
}

// The value at a place of the words under the type at a place of its sheet, its bytes from a place of the pool on. The end of the type is said where it is asked for.
#[cycle(fits)]
pub fn fit_value(
    ty: &[u32],
    words: &[u64],
    pool: &[u8],
    t: usize,
    w: usize,
    p: usize,
    depth: u32,
    asked: bool,
) -> Result<Fitted, Refusal>
    requires { Standing ty.now words.now pool.now t w p }
    ensures { FitValue ty.now words.now pool.now t w p depth asked result }
{
    let at = plain_place(ty, t);
    let kind = ty[at];
    if words[w] != u64::from(kind) {
        return fit_other(ty, words, pool, t, w, p, depth, asked);
    }
    let x = words[w + 1];
    if kind < format::KIND_FACT {
        return Ok(fit_leaf(pool, kind, x, at, w, p));
    }
    let n = ty[at + 1];
    if kind == format::KIND_FACT {
        return fit_ref(n, x, at, w, p);
    }
    if kind == format::KIND_RECORD {
        if x != u64::from(n) {
            return Err(Refusal::BadRecord);
        }
        if format::MAX_RECORD_DEPTH <= depth {
            return Err(Refusal::BadRecord);
        }
        let row = fit_fields(ty, words, pool, at + 2, w + 2, p, n, depth + 1, asked)?;
        return Ok(Fitted {
            len: row.len + 2, // its mark and its end
            ..row
        });
    }
    let choice = sheet::alternative(ty, at, x);
    let Some(place) = choice.place else {
        return Err(Refusal::UnknownDiscriminant(x));
    };
    if format::MAX_RECORD_DEPTH <= depth {
        return Err(Refusal::BadUnion(x));
    }
    match fit_value(ty, words, pool, place, w + 2, p, depth + 1, asked) {
        Ok(payload) => Ok(in_union(ty, payload, x, choice.left, asked)),
        Err(why) => Err(union_refusal(why, x)),
    }
}

// The n fields of a record, from these places on.
#[cycle(fits)]
#[inline(always)] // as a call of its own it costs a value of nested records a quarter
pub fn fit_fields(
    ty: &[u32],
    words: &[u64],
    pool: &[u8],
    at: usize,
    from: usize,
    start: usize,
    n: u32,
    depth: u32,
    asked: bool,
) -> Result<Fitted, Refusal>
    requires { StandingRow ty.now words.now pool.now at from start n }
    ensures { FitFields ty.now words.now pool.now at from start n depth asked result }
{
    let mut row = Fitted {
        at,
        word: from,
        pool: start,
        len: 0,
    };
    for passed in 0..n {
        let asks = sheet::asks(n - passed, asked);
        let field = fit_value(ty, words, pool, row.at, row.word, row.pool, depth, asks)?;
        row = Fitted {
            len: row.len + field.len,
            ..field
        };
    }
    Ok(row)
}
