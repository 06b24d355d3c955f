// Keys and sheets compared, passed over, bounded, spanned, looked for by a beginning and changed, for C.
ghost use Rattle.std.specs.Prelude.{◌≡◌};
ghost use Rattle.format.specs.Calls.{skip_call, compare_call, strinc_call, above_field_call, bounds_call, replace_call};
ghost use Rattle.format.specs.Spans.{span_call, prefix_call};
ghost use Rattle.tuple.specs.Numbers.{length_of, order_of, Writes, Bounds};

use tuple::answers::{Ends, Length, Order};

#[unsafe(no_mangle)]
pub extern "C" fn tuple_skip(bytes: &[u8], start: usize, require_escape_null: bool) -> Length
    ensures { result ≡ length_of (skip_call bytes.now start require_escape_null) }
{
    tuple::keys::tuple_skip(bytes, start, require_escape_null)
}

#[unsafe(no_mangle)]
pub extern "C" fn tuple_compare(
    words_a: &[u64],
    pool_a: &[u8],
    words_b: &[u64],
    pool_b: &[u8],
) -> Order
    ensures { result ≡ order_of (compare_call words_a.now pool_a.now words_b.now pool_b.now) }
{
    tuple::keys::tuple_compare(words_a, pool_a, words_b, pool_b)
}

#[unsafe(no_mangle)]
pub extern "C" fn tuple_strinc(prefix: &[u8], out: &mut [u8]) -> Length
    ensures { Writes (strinc_call prefix.now out.old) result out.new }
{
    tuple::keys::tuple_strinc(prefix, out)
}

#[unsafe(no_mangle)]
pub extern "C" fn tuple_above_field(key: &[u8], out: &mut [u8]) -> Length
    ensures { Writes (above_field_call key.now out.old) result out.new }
{
    tuple::keys::tuple_above_field(key, out)
}

#[unsafe(no_mangle)]
pub extern "C" fn tuple_bounds(
    ty: &[u32],
    key: &[u8],
    k: usize,
    lower: &mut [u8],
    upper: &mut [u8],
) -> Ends
    ensures { Bounds (bounds_call ty.now key.now k lower.old upper.old) result lower.new upper.new }
{
    tuple::keys::tuple_bounds(ty, key, k, lower, upper)
}

#[unsafe(no_mangle)]
pub extern "C" fn tuple_span(
    ty: &[u32],
    words: &[u64],
    pool: &[u8],
    lowest_words: &[u64],
    lowest_pool: &[u8],
    highest_words: &[u64],
    highest_pool: &[u8],
    lower: &mut [u8],
    upper: &mut [u8],
) -> Ends
    ensures { Bounds (span_call ty.now words.now pool.now lowest_words.now lowest_pool.now highest_words.now highest_pool.now lower.old upper.old) result lower.new upper.new }
{
    tuple::keys::tuple_span(
        ty,
        words,
        pool,
        lowest_words,
        lowest_pool,
        highest_words,
        highest_pool,
        lower,
        upper,
    )
}

#[unsafe(no_mangle)]
pub extern "C" fn tuple_starting_with(
    ty: &[u32],
    words: &[u64],
    pool: &[u8],
    s: &[u8],
    lower: &mut [u8],
    upper: &mut [u8],
) -> Ends
    ensures { Bounds (prefix_call ty.now words.now pool.now s.now lower.old upper.old) result lower.new upper.new }
{
    tuple::keys::tuple_starting_with(ty, words, pool, s, lower, upper)
}

#[unsafe(no_mangle)]
pub extern "C" fn tuple_replace(
    ty: &[u32],
    buffer: &mut [u8],
    used: usize,
    field: usize,
    words: &[u64],
    pool: &[u8],
) -> Length
    ensures { Writes (replace_call ty.now buffer.old used field words.now pool.now) result buffer.new }
{
    tuple::keys::tuple_replace(ty, buffer, used, field, words, pool)
}
