// The span call: the two ends of the keys whose first k fields are equal and whose next lies from a lowest to a highest value.
ghost use Rattle.std.specs.Prelude.{◌≡◌, ◌≤◌, length};
ghost use Rattle.format.specs.Spans.{span_for, span_call};
ghost use Rattle.key.specs.Keys.{bounded_of, BoundsLeft};
ghost use Rattle.key.specs.Spanning.{Asked, Refuses, longs, PutsEnd};

use crate::bounding::Ends;
use crate::records;
use format::Refusal;

// The sheets, in the order given, and the field behind the first k.
fn check_sheets(
    ty: &[u32],
    words: &[u64],
    pool: &[u8],
    low_words: &[u64],
    low_pool: &[u8],
    high_words: &[u64],
    high_pool: &[u8],
) -> Result<(), Refusal>
    ensures { Refuses ty.now words.now pool.now low_words.now low_pool.now high_words.now high_pool.now result }
{
    if !sheet::admit_type(ty) {
        return Err(Refusal::BadType);
    }
    if !records::admit_record(words, pool) {
        return Err(Refusal::BadValue);
    }
    if !sheet::admit_value(low_words, low_pool) {
        return Err(Refusal::BadValue);
    }
    if !sheet::admit_value(high_words, high_pool) {
        return Err(Refusal::BadValue);
    }
    if !records::has_next(ty, words) {
        return Err(Refusal::NoField);
    }
    Ok(())
}

// How long the two ends are, or what refuses the k values, the lowest or the highest under their types, bare at depth 0.
fn measure(
    ty: &[u32],
    words: &[u64],
    pool: &[u8],
    low_words: &[u64],
    low_pool: &[u8],
    high_words: &[u64],
    high_pool: &[u8],
) -> Result<Ends, Refusal>
    requires { Asked ty.now words.now pool.now low_words.now low_pool.now high_words.now high_pool.now }
    ensures { bounded_of result ≡ longs (span_for ty.now words.now pool.now low_words.now low_pool.now high_words.now high_pool.now) }
{
    let k = words[1] as u32;
    let first = fit::fit_fields(ty, words, pool, 2, 2, 0, k, 0, true)?;
    let low = fit::fit_value(ty, low_words, low_pool, first.at, 0, 0, 0, false)?;
    let high = fit::fit_value(ty, high_words, high_pool, first.at, 0, 0, 0, false)?;
    Ok(Ends {
        lower: first.len + low.len,
        upper: first.len + high.len + 1,
    })
}

// Writes the k fields and the value behind them at the buffer's beginning.
fn put_end(words: &[u64], pool: &[u8], next_words: &[u64], next_pool: &[u8], out: &mut [u8])
    requires { 2 ≤ length words.now }
    ensures { PutsEnd words.now pool.now next_words.now next_pool.now out.old out.new }
{
    let first = write::put_fields(words, pool, out, 2, 0, 0, words[1], 0);
    write::put_value(next_words, next_pool, out, 0, 0, first.at, 0);
}

// The ends of the keys of the type that have these first k fields and a next one from the lowest to the highest, both included.
pub fn span(
    ty: &[u32],
    words: &[u64],
    pool: &[u8],
    low_words: &[u64],
    low_pool: &[u8],
    high_words: &[u64],
    high_pool: &[u8],
    lower: &mut [u8],
    upper: &mut [u8],
) -> Result<Ends, Refusal>
    ensures { BoundsLeft (span_call ty.now words.now pool.now low_words.now low_pool.now high_words.now high_pool.now lower.old upper.old) result lower.new upper.new }
{
    check_sheets(ty, words, pool, low_words, low_pool, high_words, high_pool)?;
    let sizes = measure(ty, words, pool, low_words, low_pool, high_words, high_pool)?;
    if lower.len() < sizes.lower {
        return Err(Refusal::NoRoom(sizes.lower));
    }
    if upper.len() < sizes.upper {
        return Err(Refusal::NoRoom(sizes.upper));
    }
    put_end(words, pool, low_words, low_pool, lower);
    put_end(words, pool, high_words, high_pool, upper);
    upper[sizes.upper - 1] = format::MARK_ESCAPE;
    Ok(sizes)
}
