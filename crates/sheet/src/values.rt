// Value sheets: where a value ends, and whether a sheet is admitted. A kind stays a number, for the lent words are C's.
ghost use Rattle.std.specs.Prelude.{◌≡◌, ◌+◌, ◌≤◌, ◌<◌, length, drop, get_or};
ghost use Rattle.format.specs.TypeSheet.{is_some};
ghost use Rattle.format.specs.ValueSheet.{value_at, values, value_of};
ghost use Rattle.sheet.specs.Places.{EndsAt, ValueEnds, RunEnds};

// A place in a value sheet: in the words and in the pool.
#[derive(Clone, Copy)]
pub struct Place {
    pub words: usize,
    pub pool: usize,
}

// Behind no value. The walk says it by a place and not by an Option, for speed: with Option<Place> admission takes 1.2 to 2.3 times as long.
const NONE: Place = Place { words: 0, pool: 0 };

// The place behind the Str or the Bytes at `at`; a Str is judged.
fn run_end(words: &[u64], pool: &[u8], at: usize, from: usize) -> Place
    requires { (at + 1 < length words.now) × (1 < get_or words.now at 0) × (get_or words.now at 0 < 4) × (from ≤ length pool.now) }
    ensures { RunEnds words.now pool.now at from result.words result.pool }
{
    let len = words[at + 1];
    let rest = pool.len() - from;
    if len > rest as u64 {
        return NONE;
    }
    let end = from + len as usize;
    if words[at] == format::VALUE_BYTES {
        return Place {
            words: at + 2,
            pool: end,
        };
    }
    if text::valid(&pool[from..end]) {
        return Place {
            words: at + 2,
            pool: end,
        };
    }
    NONE
}

// The place behind the value at `at`, its bytes from `from` on, with at most `groups` groups in one another; its words are 0 if there is none.
// A union's payload is the value behind its tag.
#[cycle(value_ends)]
fn end_of(words: &[u64], pool: &[u8], at: usize, from: usize, groups: usize) -> Place
    requires { from ≤ length pool.now }
    ensures { EndsAt words.now pool.now (at + 1) from (value_at groups (drop at words.now) (drop from pool.now)) result.words result.pool }
{
    if at >= words.len() {
        return NONE;
    }
    let kind = words[at];
    if kind == format::VALUE_NULL {
        return Place {
            words: at + 1,
            pool: from,
        };
    }
    if words.len() - at < 2 {
        return NONE;
    }
    if kind == format::VALUE_FACT || kind == format::VALUE_INT {
        return Place {
            words: at + 2,
            pool: from,
        };
    }
    if kind < format::VALUE_FACT {
        return run_end(words, pool, at, from);
    }
    if groups == 0 {
        return NONE;
    }
    let x = words[at + 1];
    if kind == format::VALUE_RECORD {
        return values_end(words, pool, at + 2, from, x, groups - 1);
    }
    if kind > format::VALUE_UNION {
        return NONE;
    }
    if x >= format::DISCRIMINANTS {
        return NONE;
    }
    end_of(words, pool, at + 2, from, groups - 1)
}

// The place behind `count` values from `at` on, their bytes from `from` on, each with at most `groups` groups in one another; its words are 0 if they
// do not stand there.
#[cycle(value_ends)]
fn values_end(
    words: &[u64],
    pool: &[u8],
    at: usize,
    from: usize,
    count: u64,
    groups: usize,
) -> Place
    requires { (at ≤ length words.now) × (from ≤ length pool.now) }
    ensures { EndsAt words.now pool.now (at + count) from (values (value_at groups) count (drop at words.now) (drop from pool.now)) result.words result.pool }
{
    let mut end = Place {
        words: at,
        pool: from,
    };
    for _ in 0..count {
        end = end_of(words, pool, end.words, end.pool, groups);
        if end.words == 0 {
            return NONE;
        }
    }
    end
}

// The place behind the value at `at`, its bytes from `from` on, with at most `groups` groups in one another, if there is one.
pub fn value_end(words: &[u64], pool: &[u8], at: usize, from: usize, groups: usize) -> Option<Place>
    requires { from ≤ length pool.now }
    ensures { ValueEnds words.now pool.now (at + 1) from (value_at groups (drop at words.now) (drop from pool.now)) result }
{
    let end = end_of(words, pool, at, from, groups);
    if end.words == 0 {
        return None;
    }
    Some(end)
}

// Is the sheet admitted: words and pool used up exactly, known kinds, text where it says text, at most 1,048,576 of each and 320 groups in one another?
pub fn admit_value(words: &[u64], pool: &[u8]) -> bool
    ensures { result ≡ is_some (value_of words.now pool.now) }
{
    if words.len() > format::MAX_VALUE_WORDS {
        return false;
    }
    if pool.len() > format::MAX_POOL_BYTES {
        return false;
    }
    match value_end(words, pool, 0, 0, format::MAX_SHEET_GROUPS) {
        Some(end) => end.words == words.len() && end.pool == pool.len(),
        None => false,
    }
}
