// Fields one after another, and the groups among them. The calls nest as the groups do.
ghost use Rattle.std.specs.Prelude.{◌≡◌, ◌+◌, ◌<◌, ◌≤◌, true, length, drop, slice_index};
ghost use Rattle.fill.specs.Fill.{lent, standing, opens, fields_end, Behind, Ready, GroupFilled, FieldsFilled, ValueFilled, BareFilled};

use crate::Filled;
use crate::leaves::{fill_leaf, fill_null, fill_uint, pool_taken, put_pair};

// The place behind a group's end.
fn behind(bytes: &[u8], i: usize) -> usize
    requires { i ≤ length bytes.now }
    ensures { Behind bytes.now i result }
{
    if i < bytes.len() {
        return i + 1;
    }
    i
}

// Does a group open by the mark?
fn opens_group(mark: u8) -> bool
    ensures { result ≡ opens mark }
{
    mark == format::MARK_RECORD || mark == format::MARK_UNION
}

// Do the fields end here: at the end of the key, or inside a group at its end?
fn fields_end(bytes: &[u8], j: usize, depth: usize) -> bool
    requires { j ≤ length bytes.now }
    ensures { result ≡ fields_end depth (drop j bytes.now) }
{
    if bytes.len() <= j {
        return true;
    }
    if depth == 0 {
        return false;
    }
    scalar::groups::ends_here(&bytes[j..])
}

// A record or a union that stands at a depth. A record's word is written last, when its fields are counted.
#[cycle(groups)]
fn fill_group(
    bytes: &[u8],
    i: usize,
    words: &mut [u64],
    w: usize,
    pool: &mut [u8],
    p: usize,
    depth: usize,
) -> Filled
    requires { (Ready bytes.now (standing i w p 0) depth (lent words.old pool.old)) × ((i < length bytes.now) × (w + 2 ≤ length words.old) × (opens (slice_index bytes.now i) ≡ true)) }
    ensures { GroupFilled bytes.now (standing i w p 0) depth (lent words.old pool.old) result (lent words.new pool.new) }
{
    let j = i + 1;
    let inner = w + 2;
    let inside = depth + 1;
    if bytes[i] == format::MARK_RECORD {
        let r = fill_fields(bytes, j, words, inner, pool, p, inside);
        put_pair(words, w, format::VALUE_RECORD, r.count);
        return Filled {
            next: behind(bytes, r.next),
            count: 0,
            ..r
        };
    }
    if bytes.len() <= j {
        return Filled {
            next: j,
            words: w,
            pool: p,
            count: 0,
        };
    }
    let payload = fill_uint(bytes, j, words, w, format::VALUE_UNION);
    let r = fill_fields(bytes, payload, words, inner, pool, p, inside);
    Filled {
        next: behind(bytes, r.next),
        count: 0,
        ..r
    }
}

// The fields that stand at a depth, up to their end, with their count. A union's payload is one field. A 00 that is no end is a blank.
#[cycle(groups)]
fn fill_fields(
    bytes: &[u8],
    i: usize,
    words: &mut [u64],
    w: usize,
    pool: &mut [u8],
    p: usize,
    depth: usize,
) -> Filled
    requires { Ready bytes.now (standing i w p 0) depth (lent words.old pool.old) }
    ensures { FieldsFilled bytes.now (standing i w p 0) depth (lent words.old pool.old) result (lent words.new pool.new) }
{
    let mut j = i;
    let mut w1 = w;
    let mut p1 = p;
    let mut n: u64 = 0;
    while !fields_end(bytes, j, depth) {
        let mark = bytes[j];
        if mark == format::MARK_NULL {
            if words.len() <= w1 {
                break;
            }
            j += fill_null(words, w1, depth);
            w1 += 1;
        } else if words.len() - w1 < 2 {
            break;
        } else if opens_group(mark) {
            let g = fill_group(bytes, j, words, w1, pool, p1, depth);
            j = g.next;
            w1 = g.words;
            p1 = g.pool;
        } else {
            j = fill_leaf(bytes, j, words, w1, pool, p1);
            p1 += pool_taken(mark, words[w1 + 1]);
            w1 += 2;
        }
        n += 1;
    }
    Filled {
        next: j,
        words: w1,
        pool: p1,
        count: n,
    }
}

// The sheet of a value that the bytes hold whole. It stands at depth 0.
pub fn fill_value(bytes: &[u8], words: &mut [u64], pool: &mut [u8])
    ensures { ValueFilled bytes.now words.old pool.old words.new pool.new }
{
    fill_fields(bytes, 0, words, 0, pool, 0, 0);
}

// The sheet of a record whose fields the bytes hold bare, at depth 0.
pub fn fill_bare(bytes: &[u8], words: &mut [u64], pool: &mut [u8])
    ensures { BareFilled bytes.now words.old pool.old words.new pool.new }
{
    if 2 <= words.len() {
        let r = fill_fields(bytes, 0, words, 2, pool, 0, 0);
        put_pair(words, 0, format::VALUE_RECORD, r.count);
    }
}
