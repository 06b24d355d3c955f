// The reading and the writing cursor: a place and a depth, by value, beside the bytes. A refused step hands back no cursor: the caller's own stands.
#![tactic(auto)]

mod reading;
mod writing;

ghost use Rattle.std.specs.Prelude.{◌≡◌};
ghost use Rattle.format.specs.Refusals.{answered};
ghost use Rattle.format.specs.Cursor.{deep};
ghost use Rattle.cursor.specs.Steps.{cursor_of, inner, outer};

use format::Refusal;
pub use reading::{
    close, is_record_end, open_record, open_union, payload, remaining, take_bytes, take_fact_id,
    take_i64, take_null, take_str, take_u64,
};
pub use writing::{
    put_bytes, put_end, put_fact_id, put_i64, put_null, put_record, put_str, put_u64, put_union,
};

// A place in the bytes and how many groups are open. Any place and any depth will do: past the end nothing is left, and a depth over 256 is 256.
#[derive(Clone, Copy, Debug, PartialEq, Eq)]
pub struct Cursor {
    pub at: usize,
    pub depth: u32,
}

impl Cursor {
    // Before the first field, outside every group.
    pub fn start() -> Cursor
        ensures { (result.at ≡ 0) × (result.depth ≡ 0) }
    {
        Cursor { at: 0, depth: 0 }
    }

    pub fn position(self) -> usize
        ensures { result ≡ self.at }
    {
        self.at
    }
}

// How many groups are open.
fn depth_of(c: Cursor) -> u32
    ensures { result ≡ deep (cursor_of c) }
{
    c.depth.min(format::MAX_RECORD_DEPTH)
}

// The depth in a group that opens. At depth 256 none may.
fn inner_depth(c: Cursor) -> Result<u32, Refusal>
    ensures { answered result ≡ inner (cursor_of c) }
{
    let depth = depth_of(c);
    if format::MAX_RECORD_DEPTH <= depth {
        return Err(Refusal::BadRecord);
    }
    Ok(depth + 1)
}

// The depth behind the end of the open group. At depth 0 none is open.
fn outer_depth(c: Cursor) -> Result<u32, Refusal>
    ensures { answered result ≡ outer (cursor_of c) }
{
    if c.depth == 0 {
        return Err(Refusal::BadRecord);
    }
    Ok(depth_of(c) - 1)
}
