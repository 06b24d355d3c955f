// The prefix call: the two ends of the keys whose first k fields are equal and whose next, a Str or Bytes, begins with given bytes.
ghost use Rattle.std.specs.Prelude.{◌≡◌, ◌+◌, ◌≤◌, ◌<◌, length};
ghost use Rattle.format.specs.Scalar.{run_start};
ghost use Rattle.format.specs.Bounds.{trimmed};
ghost use Rattle.format.specs.Spans.{prefix_call};
ghost use Rattle.read.specs.Walk.{TypeAt};
ghost use Rattle.key.specs.Keys.{BoundsLeft};
ghost use Rattle.key.specs.Starting.{mark_in, kind_mark, MarksRun, NextSays, FirstFit, PutsStart, PutsStarts};

use crate::bounding::Ends;
use crate::records;
use format::Refusal;
use scalar::{puts, starts};

// The mark of a Str or a Bytes, by the kind's number.
fn mark_of(kind: u32) -> Option<u8>
    ensures { result ≡ mark_in (kind_mark kind) }
{
    match kind {
        format::KIND_STR => Some(format::MARK_STRING),
        format::KIND_BYTES => Some(format::MARK_BYTES),
        _ => None,
    }
}

// The mark of the Str or Bytes type at a place, of an optional one too.
fn run_mark(ty: &[u32], at: usize) -> Option<u8>
    requires { TypeAt ty.now at }
    ensures { MarksRun ty.now at result }
{
    if ty[at] == format::KIND_OPTIONAL {
        return mark_of(ty[at + 1]);
    }
    mark_of(ty[at])
}

// The sheets, and then the mark of the field behind the first k, by its kind: before these values are judged.
fn next_run(ty: &[u32], words: &[u64], pool: &[u8]) -> Result<u8, Refusal>
    ensures { NextSays ty.now words.now pool.now result }
{
    if !sheet::admit_type(ty) {
        return Err(Refusal::BadType);
    }
    if !records::admit_record(words, pool) {
        return Err(Refusal::BadValue);
    }
    if !records::has_next(ty, words) {
        return Err(Refusal::NoField);
    }
    let at = sheet::skip_fields(ty, 2, words[1] as u32);
    run_mark(ty, at).ok_or(Refusal::NoField)
}

// How many bytes the beginning of a run keeps without its trailing FF: those of s go, and where a zero stands before them, its escape's FF goes too.
fn trimmed_start(s: &[u8]) -> usize
    ensures { result ≡ length (trimmed (run_start s.now)) }
{
    let n = ends::trimmed_len(s);
    if n == 0 {
        return 0;
    }
    let run = starts::start_len(&s[..n]);
    if s[n - 1] == 0 {
        return run - 1;
    }
    run
}

// Writes the k fields, which have n bytes, the mark and the bytes of s, before the run's end.
fn put_start(words: &[u64], pool: &[u8], n: usize, mark: u8, s: &[u8], out: &mut [u8])
    requires { FirstFit words.now pool.now n × (n + 1 + length (run_start s.now) ≤ length out.old) }
    ensures { PutsStart words.now pool.now n mark s.now out.old out.new }
{
    write::put_fields(words, pool, out, 2, 0, 0, words[1], 0);
    out[n] = mark;
    starts::write_start(out, n + 1, s);
}

// Both ends are measured, the lower first, before either is written. The mark is below FF, so strinc finds a byte to add one to.
fn put_starts(
    words: &[u64],
    pool: &[u8],
    n: usize,
    mark: u8,
    s: &[u8],
    lower: &mut [u8],
    upper: &mut [u8],
) -> Result<Ends, Refusal>
    requires { FirstFit words.now pool.now n × (mark < 0xFF) }
    ensures { PutsStarts words.now pool.now n mark s.now lower.old upper.old result lower.new upper.new }
{
    let low = puts::room(lower.len(), 0, n + 1, starts::start_len(s))?;
    let high = n + 1 + trimmed_start(s);
    if upper.len() < high {
        return Err(Refusal::NoRoom(high));
    }
    put_start(words, pool, n, mark, s, lower);
    let end = ends::strinc(&lower[..low], upper)?;
    Ok(Ends {
        lower: low,
        upper: end,
    })
}

// The ends of the keys of the type that have these first k fields and a next one that begins with the bytes of s.
pub fn starting_with(
    ty: &[u32],
    words: &[u64],
    pool: &[u8],
    s: &[u8],
    lower: &mut [u8],
    upper: &mut [u8],
) -> Result<Ends, Refusal>
    ensures { BoundsLeft (prefix_call ty.now words.now pool.now s.now lower.old upper.old) result lower.new upper.new }
{
    let mark = next_run(ty, words, pool)?;
    let k = words[1] as u32;
    let first = fit::fit_fields(ty, words, pool, 2, 2, 0, k, 0, false)?;
    put_starts(words, pool, first.len, mark, s, lower, upper)
}
