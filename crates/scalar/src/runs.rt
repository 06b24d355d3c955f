// Escaped runs: each 00 of the payload is written 00 FF, and a 00 not followed by FF ends the run.
ghost use Rattle.std.specs.Prelude.{◌≡◌, ◌+◌, ◌≤◌, length};
ghost use Rattle.format.specs.Refusals.{answered};
ghost use Rattle.format.specs.Scalar.{escaped};
ghost use Rattle.format.specs.Utf8.{utf8};
ghost use Rattle.format.specs.Read.{marked, get_run};
ghost use Rattle.format.specs.Fields.{put};
ghost use Rattle.scalar.specs.Runs.{WritesRun, measured, run_end, marked_by, unescape};

use crate::marks::expect_mark;
use crate::starts;
use format::Refusal;

// How many bytes the run of a payload has: its beginning, and the end.
pub fn escaped_len(payload: &[u8]) -> usize
    ensures { result ≡ length (escaped payload.now) }
{
    starts::start_len(payload) + 1
}

// The place behind what was written, and how many zeros were escaped in it.
#[derive(Clone, Copy, Debug, PartialEq, Eq)]
pub struct Written {
    pub end: usize,
    pub zeros: usize,
}

// Writes a payload as a run from a place on. What the run has beside the payload and its end are the escapes.
pub fn write_escaped(buf: &mut [u8], at: usize, payload: &[u8]) -> Written
    requires { at + length (escaped payload.now) ≤ length buf.old }
    ensures { WritesRun buf.old at payload.now result buf.new }
{
    let end = starts::write_start(buf, at, payload);
    buf[end] = format::MARK_TERM;
    let zeros = end - at - payload.len();
    Written {
        end: end + 1,
        zeros,
    }
}

// Where a run's terminator is and how many bytes its payload has.
#[derive(Clone, Copy, Debug, PartialEq, Eq)]
pub struct Run {
    pub end: usize,
    pub len: usize,
}

// The place of the terminator of the run whose bytes from a place on are searched, or the length where there is none. A 00 not followed by FF ends it, also as the
// last byte. Callers search from the run's start or from a zero in it, never from between a 00 and its FF.
pub fn run_end(bytes: &[u8], from: usize) -> usize
    requires { from ≤ length bytes.now }
    ensures { result ≡ run_end bytes.now from }
{
    let mut i: usize = from;
    loop {
        let z = blocks::zero_from(bytes, i);
        if bytes.len() - z < 2 {
            return z;
        }
        if bytes[z + 1] != format::MARK_ESCAPE {
            return z;
        }
        i = z + 2;
    }
}

// Measures the run that the bytes begin with, if it ends. Each zero of its payload has one 00 in the run, and the FF behind it is no payload.
pub fn measure_run(bytes: &[u8]) -> Option<Run>
    ensures { result ≡ measured bytes.now }
{
    let first = blocks::zero_from(bytes, 0);
    let end = run_end(bytes, first);
    if bytes.len() <= end {
        return None;
    }
    if end == first {
        return Some(Run { end, len: end });
    }
    let len = end - blocks::count_zeros(&bytes[first..end]);
    Some(Run { end, len })
}

// Measures the run behind a mark that the bytes begin with. Its place counts from the mark on.
pub fn marked_run(bytes: &[u8], mark: u8) -> Result<Run, Refusal>
    ensures { answered result ≡ marked_by bytes.now (marked mark get_run bytes.now) }
{
    expect_mark(bytes, mark)?;
    let run = measure_run(&bytes[1..]).ok_or(Refusal::UnexpectedEof)?;
    Ok(Run {
        end: run.end + 1,
        len: run.len,
    })
}

// Writes the payload of a run's bytes, those before its terminator, from a place on, and returns the place behind it.
pub fn unescape_into(run: &[u8], dst: &mut [u8], at: usize) -> usize
    requires { at + length (unescape run.now) ≤ length dst.old }
    ensures { (result ≡ at + length (unescape run.now)) × (dst.new ≡ put dst.old at (unescape run.now)) }
{
    let mut i: usize = 0;
    let mut o: usize = at;
    while i < run.len() {
        let z = blocks::zero_from(run, i);
        blocks::copy_to(dst, o, run, i, z);
        o += z - i;
        if run.len() <= z {
            return o;
        }
        dst[o] = 0;
        o += 1;
        i = z + 2;
    }
    o
}

// The same where the payload's length is known: without an escape the run is its own payload.
pub fn payload_into(run: &[u8], dst: &mut [u8], at: usize, n: usize)
    requires { (n ≡ length (unescape run.now)) × (at + n ≤ length dst.old) }
    ensures { dst.new ≡ put dst.old at (unescape run.now) }
{
    if n == run.len() {
        blocks::copy_to(dst, at, run, 0, n);
    } else {
        unescape_into(run, dst, at);
    }
}

// Is the payload of a run's bytes text? It is judged piece by piece between its zeros, and not written.
pub fn run_is_text(run: &[u8]) -> bool
    ensures { result ≡ utf8 (unescape run.now) }
{
    let mut i: usize = 0;
    while i < run.len() {
        let z = blocks::zero_from(run, i);
        if !text::valid(&run[i..z]) {
            return false;
        }
        if run.len() <= z {
            return true;
        }
        i = z + 2;
    }
    true
}

// The same where the payload's length is known: without an escape the run is its own payload.
pub fn payload_is_text(run: &[u8], n: usize) -> bool
    requires { n ≡ length (unescape run.now) }
    ensures { result ≡ utf8 (unescape run.now) }
{
    if n == run.len() {
        text::valid(run)
    } else {
        run_is_text(run)
    }
}
