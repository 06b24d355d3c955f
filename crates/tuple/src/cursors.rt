// The single steps of the reading and the writing cursor. The writing cursor's other fields are put calls too: they keep the depth.
ghost use Rattle.std.specs.Prelude.{◌≡◌};
ghost use Rattle.format.specs.Cursor.{take_null, take_i64, take_u64, take_fact_id, take_str, take_bytes, open_record, open_union, close, is_record_end, put_null, put_record, put_union, put_end};
ghost use Rattle.tuple.specs.StepNumbers.{cursor_at, step_of, moved_step, end_number, PartTaken, StepWritten};

use crate::answers::Number;
use crate::steps;
use crate::steps::{CursorStep, PartStep};

pub fn tuple_take_null(bytes: &[u8], at: usize, depth: usize) -> CursorStep
    ensures { result ≡ moved_step at depth (take_null bytes.now (cursor_at at depth)) }
{
    let c = steps::cursor_at(at, depth);
    steps::of_moved(cursor::take_null(bytes, c), at, depth)
}

pub fn tuple_take_i64(bytes: &[u8], at: usize, depth: usize) -> CursorStep
    ensures { result ≡ step_of at depth (take_i64 bytes.now (cursor_at at depth)) }
{
    let c = steps::cursor_at(at, depth);
    steps::of_taken(cursor::take_i64(bytes, c), at, depth)
}

pub fn tuple_take_u64(bytes: &[u8], at: usize, depth: usize) -> CursorStep
    ensures { result ≡ step_of at depth (take_u64 bytes.now (cursor_at at depth)) }
{
    let c = steps::cursor_at(at, depth);
    steps::of_taken(cursor::take_u64(bytes, c), at, depth)
}

pub fn tuple_take_fact_id(bytes: &[u8], at: usize, depth: usize) -> CursorStep
    ensures { result ≡ step_of at depth (take_fact_id bytes.now (cursor_at at depth)) }
{
    let c = steps::cursor_at(at, depth);
    steps::of_taken(cursor::take_fact_id(bytes, c), at, depth)
}

pub fn tuple_take_str(bytes: &[u8], at: usize, depth: usize, scratch: &mut [u8]) -> PartStep
    ensures { PartTaken at depth (take_str bytes.now (cursor_at at depth) scratch.old) result scratch.new }
{
    let c = steps::cursor_at(at, depth);
    steps::of_part(cursor::take_str(bytes, c, scratch), at, depth)
}

pub fn tuple_take_bytes(bytes: &[u8], at: usize, depth: usize, scratch: &mut [u8]) -> PartStep
    ensures { PartTaken at depth (take_bytes bytes.now (cursor_at at depth) scratch.old) result scratch.new }
{
    let c = steps::cursor_at(at, depth);
    steps::of_part(cursor::take_bytes(bytes, c, scratch), at, depth)
}

pub fn tuple_open_record(bytes: &[u8], at: usize, depth: usize) -> CursorStep
    ensures { result ≡ moved_step at depth (open_record bytes.now (cursor_at at depth)) }
{
    let c = steps::cursor_at(at, depth);
    steps::of_moved(cursor::open_record(bytes, c), at, depth)
}

pub fn tuple_open_union(bytes: &[u8], at: usize, depth: usize) -> CursorStep
    ensures { result ≡ step_of at depth (open_union bytes.now (cursor_at at depth)) }
{
    let c = steps::cursor_at(at, depth);
    steps::of_taken(cursor::open_union(bytes, c), at, depth)
}

pub fn tuple_close(bytes: &[u8], at: usize, depth: usize) -> CursorStep
    ensures { result ≡ moved_step at depth (close bytes.now (cursor_at at depth)) }
{
    let c = steps::cursor_at(at, depth);
    steps::of_moved(cursor::close(bytes, c), at, depth)
}

pub fn tuple_is_record_end(bytes: &[u8], at: usize, depth: usize) -> Number
    ensures { result ≡ end_number (is_record_end bytes.now (cursor_at at depth)) }
{
    let c = steps::cursor_at(at, depth);
    Number::from(cursor::is_record_end(bytes, c))
}

pub fn tuple_put_null(out: &mut [u8], at: usize, depth: usize) -> CursorStep
    ensures { StepWritten at depth (put_null out.old (cursor_at at depth)) result out.new }
{
    let c = steps::cursor_at(at, depth);
    steps::of_moved(cursor::put_null(out, c), at, depth)
}

pub fn tuple_put_record(out: &mut [u8], at: usize, depth: usize) -> CursorStep
    ensures { StepWritten at depth (put_record out.old (cursor_at at depth)) result out.new }
{
    let c = steps::cursor_at(at, depth);
    steps::of_moved(cursor::put_record(out, c), at, depth)
}

pub fn tuple_put_end(out: &mut [u8], at: usize, depth: usize) -> CursorStep
    ensures { StepWritten at depth (put_end out.old (cursor_at at depth)) result out.new }
{
    let c = steps::cursor_at(at, depth);
    steps::of_moved(cursor::put_end(out, c), at, depth)
}

pub fn tuple_put_union(out: &mut [u8], at: usize, depth: usize, disc: u32) -> CursorStep
    ensures { StepWritten at depth (put_union out.old (cursor_at at depth) disc) result out.new }
{
    let c = steps::cursor_at(at, depth);
    steps::of_moved(cursor::put_union(out, c, disc), at, depth)
}
