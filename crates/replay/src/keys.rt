// skip: bytes start flag = refusal detail end. compare: words pool words pool = refusal detail order. strinc, above_field: bytes room = refusal detail
// length bytes. bounds: type key k room-of-lower room-of-upper = refusal detail lengths ends. span: type, words and pool of the first values, of the lowest
// and of the highest, room-of-lower room-of-upper = refusal detail lengths ends. replace: type buffer used field words pool = refusal detail length buffer.
use crate::answers;
use std::cmp::Ordering;
use tuple::answers::{Ends, Order};
use tuple::keys;

pub fn skip(line: &[u8], bytes: &[u8]) -> bool {
    let a = keys::tuple_skip(bytes, lines::size(line, 2), lines::size(line, 3) == 1);
    answers::is_length(line, 5, a)
}

// The order as the list has it: 0 less, 1 equal, 2 greater, and 0 where refused.
fn order(a: Order) -> u64 {
    if a.refusal != 0 {
        return 0;
    }
    match a.order.cmp(&0) {
        Ordering::Less => 0,
        Ordering::Equal => 1,
        Ordering::Greater => 2,
    }
}

fn compared(line: &[u8], words: &[u64], pool: &[u8]) -> bool {
    let mut words_b = [0; 8192];
    let mut pool_b = [0; 72000];
    let w = lines::words(line, 3, &mut words_b);
    let p = lines::bytes(line, 4, &mut pool_b);
    let a = keys::tuple_compare(words, pool, &words_b[..w], &pool_b[..p]);
    lines::are_decimals(line, 6, &[a.refusal as u64, a.detail, order(a)])
}

pub fn compare(line: &[u8]) -> bool {
    let mut words = [0; 8192];
    let mut pool = [0; 72000];
    let w = lines::words(line, 1, &mut words);
    let p = lines::bytes(line, 2, &mut pool);
    compared(line, &words[..w], &pool[..p])
}

pub fn end(line: &[u8], above: bool, bytes: &[u8]) -> bool {
    let mut out = answers::lent();
    let n = answers::room(line, 2, &out);
    let a = if above {
        keys::tuple_above_field(bytes, &mut out[..n])
    } else {
        keys::tuple_strinc(bytes, &mut out[..n])
    };
    answers::wrote(line, 4, a, 0, &out)
}

fn bounded(line: &[u8], first: usize, a: Ends, lower: &[u8; 72000], upper: &[u8; 72000]) -> bool {
    lines::are_decimals(line, first, &[a.refusal as u64, a.detail, a.lower, a.upper])
        & answers::written(
            line,
            std::num::wrapping_add_usize(first, 4),
            0,
            a.lower as usize,
            lower,
        )
        & answers::written(
            line,
            std::num::wrapping_add_usize(first, 5),
            0,
            a.upper as usize,
            upper,
        )
}

pub fn bounds(line: &[u8], ty: &[u32], key: &[u8]) -> bool {
    let mut lower = answers::lent();
    let mut upper = answers::lent();
    let low = answers::room(line, 4, &lower);
    let high = answers::room(line, 5, &upper);
    let a = keys::tuple_bounds(
        ty,
        key,
        lines::size(line, 3),
        &mut lower[..low],
        &mut upper[..high],
    );
    bounded(line, 7, a, &lower, &upper)
}

// By the sheets of the first values, of the lowest and of the highest.
fn spanned(
    line: &[u8],
    ty: &[u32],
    words: &[u64],
    pool: &[u8],
    lowest_words: &[u64],
    lowest_pool: &[u8],
    highest_words: &[u64],
    highest_pool: &[u8],
) -> bool {
    let mut lower = answers::lent();
    let mut upper = answers::lent();
    let low = answers::room(line, 8, &lower);
    let high = answers::room(line, 9, &upper);
    let a = keys::tuple_span(
        ty,
        words,
        pool,
        lowest_words,
        lowest_pool,
        highest_words,
        highest_pool,
        &mut lower[..low],
        &mut upper[..high],
    );
    bounded(line, 11, a, &lower, &upper)
}

fn with_lowest(
    line: &[u8],
    ty: &[u32],
    words: &[u64],
    pool: &[u8],
    lowest_words: &[u64],
    lowest_pool: &[u8],
) -> bool {
    let mut highest_words = [0; 8192];
    let mut highest_pool = [0; 72000];
    let w = lines::words(line, 6, &mut highest_words);
    let p = lines::bytes(line, 7, &mut highest_pool);
    spanned(
        line,
        ty,
        words,
        pool,
        lowest_words,
        lowest_pool,
        &highest_words[..w],
        &highest_pool[..p],
    )
}

fn with_first(line: &[u8], ty: &[u32], words: &[u64], pool: &[u8]) -> bool {
    let mut lowest_words = [0; 8192];
    let mut lowest_pool = [0; 72000];
    let w = lines::words(line, 4, &mut lowest_words);
    let p = lines::bytes(line, 5, &mut lowest_pool);
    with_lowest(line, ty, words, pool, &lowest_words[..w], &lowest_pool[..p])
}

pub fn span(line: &[u8], ty: &[u32]) -> bool {
    let mut words = [0; 8192];
    let mut pool = [0; 72000];
    let w = lines::words(line, 2, &mut words);
    let p = lines::bytes(line, 3, &mut pool);
    with_first(line, ty, &words[..w], &pool[..p])
}

// The whole buffer stands in the answer, also where the call is refused.
fn replaced(line: &[u8], ty: &[u32], words: &[u64], pool: &[u8]) -> bool {
    let mut buffer = [0; 72000];
    let n = lines::bytes(line, 2, &mut buffer);
    let a = keys::tuple_replace(
        ty,
        &mut buffer[..n],
        lines::size(line, 3),
        lines::size(line, 4),
        words,
        pool,
    );
    answers::is_length(line, 8, a) & answers::holds(line, 11, 0, n, &buffer)
}

pub fn replace(line: &[u8], ty: &[u32]) -> bool {
    let mut words = [0; 8192];
    let mut pool = [0; 72000];
    let w = lines::words(line, 5, &mut words);
    let p = lines::bytes(line, 6, &mut pool);
    replaced(line, ty, &words[..w], &pool[..p])
}
