// Keys and sheets compared, passed over, bounded, spanned, looked for by a beginning and changed.
ghost use Rattle.std.specs.Prelude.{◌≡◌};
ghost use Rattle.format.specs.Calls.{skip_call, compare_call, strinc_call, above_field_call, bounds_call, replace_call};
ghost use Rattle.format.specs.Spans.{span_call, prefix_call};
ghost use Rattle.tuple.specs.Numbers.{length_of, order_of, Writes, Bounds};

use crate::answers::{Ends, Length, Order};

pub fn tuple_skip(bytes: &[u8], start: usize, require_escape_null: bool) -> Length
    ensures { result ≡ length_of (skip_call bytes.now start require_escape_null) }
{
    Length::from(skip::skip(bytes, start, require_escape_null))
}

pub fn tuple_compare(words_a: &[u64], pool_a: &[u8], words_b: &[u64], pool_b: &[u8]) -> Order
    ensures { result ≡ order_of (compare_call words_a.now pool_a.now words_b.now pool_b.now) }
{
    Order::from(order::compare(words_a, pool_a, words_b, pool_b))
}

// What an accepted call leaves is the least end above the prefix: theorem tight_call, which has it from this contract and from theorem strinc_tight of format.
pub fn tuple_strinc(prefix: &[u8], out: &mut [u8]) -> Length
    ensures { Writes (strinc_call prefix.now out.old) result out.new }
{
    Length::from(ends::strinc(prefix, out))
}

pub fn tuple_above_field(key: &[u8], out: &mut [u8]) -> Length
    ensures { Writes (above_field_call key.now out.old) result out.new }
{
    Length::from(ends::above_field(key, out))
}

pub fn tuple_bounds(ty: &[u32], key: &[u8], k: usize, lower: &mut [u8], upper: &mut [u8]) -> Ends
    ensures { Bounds (bounds_call ty.now key.now k lower.old upper.old) result lower.new upper.new }
{
    Ends::from(key::bounds(ty, key, k, lower, upper))
}

// Between the ends of an accepted call lie exactly the keys of the type whose first k fields are equal and whose next lies in the span: theorem exact_call,
// which has it from this contract and from theorem spans of format.
pub fn tuple_span(
    ty: &[u32],
    words: &[u64],
    pool: &[u8],
    lowest_words: &[u64],
    lowest_pool: &[u8],
    highest_words: &[u64],
    highest_pool: &[u8],
    lower: &mut [u8],
    upper: &mut [u8],
) -> Ends
    ensures { Bounds (span_call ty.now words.now pool.now lowest_words.now lowest_pool.now highest_words.now highest_pool.now lower.old upper.old) result lower.new upper.new }
{
    Ends::from(key::span(
        ty,
        words,
        pool,
        lowest_words,
        lowest_pool,
        highest_words,
        highest_pool,
        lower,
        upper,
    ))
}

// Between the ends of an accepted call lie exactly the keys of the type whose first k fields are equal and whose next begins with the bytes of s, and the upper
// end is the least: theorem prefix_call_lem, which has it from this contract and from theorem prefixes of format.
pub fn tuple_starting_with(
    ty: &[u32],
    words: &[u64],
    pool: &[u8],
    s: &[u8],
    lower: &mut [u8],
    upper: &mut [u8],
) -> Ends
    ensures { Bounds (prefix_call ty.now words.now pool.now s.now lower.old upper.old) result lower.new upper.new }
{
    Ends::from(key::starting_with(ty, words, pool, s, lower, upper))
}

pub fn tuple_replace(
    ty: &[u32],
    buffer: &mut [u8],
    used: usize,
    field: usize,
    words: &[u64],
    pool: &[u8],
) -> Length
    ensures { Writes (replace_call ty.now buffer.old used field words.now pool.now) result buffer.new }
{
    Length::from(key::replace(ty, buffer, used, field, words, pool))
}
