// The order of two values, over their sheets.
#![tactic(auto)]

ghost use Rattle.std.specs.Prelude.{◌≡◌, ◌+◌, ◌≤◌, length};
ghost use Rattle.format.specs.Order.{offset};
ghost use Rattle.format.specs.Calls.{compare_call};
ghost use Rattle.order.specs.Compare.{compared_of, rank_of, Within, CompareScalar, CompareValue, CompareFields};

use format::Refusal;
use std::cmp::Ordering;

// The rank of a kind, as the definition of the order has it: the least mark of the kind. A number and no enum, for the definition compares these numbers.
const RANK_NULL: u64 = 0x00;

const RANK_STR: u64 = 0x21;

const RANK_RECORD: u64 = 0x22;

const RANK_INT: u64 = 0x40;

const RANK_FACT: u64 = 0x51;

const RANK_UNION: u64 = 0x52;

const RANK_BYTES: u64 = 0x53;

const TOP_BIT: u64 = 0x8000_0000_0000_0000;

// Where a walk stands in the words and the pool of both sheets, and how what it passed compares. Only an equal walk goes on.
// The order stands last: in front, the copies of its padding cost a comparison up to a tenth.
#[derive(Clone, Copy)]
pub struct Walk {
    pub i: usize,
    pub p: usize,
    pub j: usize,
    pub q: usize,
    pub order: Ordering,
}

// The rank of a kind's number.
#[tactic(auto, unfolding(crate::specs::Compare::rank_of))]
fn rank_of(kind: u64) -> u64
    ensures { result ≡ rank_of kind }
{
    match kind {
        format::VALUE_INT => RANK_INT,
        format::VALUE_STR => RANK_STR,
        format::VALUE_BYTES => RANK_BYTES,
        format::VALUE_FACT => RANK_FACT,
        format::VALUE_RECORD => RANK_RECORD,
        format::VALUE_UNION => RANK_UNION,
        _ => RANK_NULL,
    }
}

// Words of integers in their order as unsigned numbers: the top bit flipped.
fn flipped(x: u64) -> u64
    ensures { result ≡ offset x }
{
    x.wrapping_add(TOP_BIT)
}

// Two values that are no groups, of one rank and with the second words x and y.
fn compare_scalar(pa: &[u8], pb: &[u8], s: Walk, rank: u64, x: u64, y: u64) -> Walk
    requires { (s.p ≤ length pa.now) × (s.q ≤ length pb.now) × (s.i + 2 ≤ 0xffffffffffffffff) × (s.j + 2 ≤ 0xffffffffffffffff) }
    ensures { CompareScalar pa.now pb.now s rank x y result }
{
    let i = s.i + 2;
    let j = s.j + 2;
    if rank == RANK_INT {
        let order = flipped(x).cmp(&flipped(y));
        return Walk { order, i, j, ..s };
    }
    if rank == RANK_FACT {
        let order = x.cmp(&y);
        return Walk { order, i, j, ..s };
    }
    let m = x as usize;
    let n = y as usize;
    if pa.len() - s.p < m {
        return s;
    }
    if pb.len() - s.q < n {
        return s;
    }
    let p = s.p + m;
    let q = s.q + n;
    let order = blocks::compare(&pa[s.p..p], &pb[s.q..q]);
    Walk { order, i, p, j, q }
}

// The values at the places.
#[cycle(compares)]
fn compare_value(wa: &[u64], pa: &[u8], wb: &[u64], pb: &[u8], s: Walk) -> Walk
    requires { Within wa.now pa.now wb.now pb.now s }
    ensures { CompareValue wa.now pa.now wb.now pb.now s result }
{
    let i = s.i;
    let j = s.j;
    if wa.len() <= i || wb.len() <= j {
        return s;
    }
    let rank = rank_of(wa[i]);
    let other = rank_of(wb[j]);
    if rank != other {
        return Walk {
            order: rank.cmp(&other),
            ..s
        };
    }
    if rank == RANK_NULL {
        return Walk {
            order: Ordering::Equal,
            i: i + 1,
            j: j + 1,
            ..s
        };
    }
    if wa.len() - i < 2 || wb.len() - j < 2 {
        return s;
    }
    let x = wa[i + 1];
    let y = wb[j + 1];
    let inside = Walk {
        order: Ordering::Equal,
        i: i + 2,
        j: j + 2,
        ..s
    };
    if rank == RANK_RECORD {
        return compare_fields(wa, pa, wb, pb, inside, x, y);
    }
    if rank == RANK_UNION {
        if x != y {
            return Walk {
                order: x.cmp(&y),
                ..s
            };
        }
        return compare_value(wa, pa, wb, pb, inside);
    }
    compare_scalar(pa, pb, s, rank, x, y)
}

// The fields of two records, x in the first and y in the second: the first that differ decide, else the shorter record comes first.
#[cycle(compares)]
fn compare_fields(wa: &[u64], pa: &[u8], wb: &[u64], pb: &[u8], s: Walk, x: u64, y: u64) -> Walk
    requires { Within wa.now pa.now wb.now pb.now s }
    ensures { CompareFields wa.now pa.now wb.now pb.now s x y result }
{
    let mut here = s;
    for _ in 0..x.min(y) {
        here = compare_value(wa, pa, wb, pb, here);
        if here.order.is_ne() {
            return here;
        }
    }
    Walk {
        order: x.cmp(&y),
        ..here
    }
}

// How two values compare, for any two admitted sheets, the first judged first.
pub fn compare(
    words_a: &[u64],
    pool_a: &[u8],
    words_b: &[u64],
    pool_b: &[u8],
) -> Result<Ordering, Refusal>
    ensures { compared_of result ≡ compare_call words_a.now pool_a.now words_b.now pool_b.now }
{
    if !sheet::admit_value(words_a, pool_a) {
        return Err(Refusal::BadValue);
    }
    if !sheet::admit_value(words_b, pool_b) {
        return Err(Refusal::BadValue);
    }
    let top = Walk {
        order: Ordering::Equal,
        i: 0,
        p: 0,
        j: 0,
        q: 0,
    };
    Ok(compare_value(words_a, pool_a, words_b, pool_b, top).order)
}
