// Payloads read from the front of a key: a part of the key where no escape occurs, otherwise of the scratch buffer, filled just before.
ghost use Rattle.std.specs.Prelude.{◌≡◌, ◌+◌};
ghost use Rattle.format.specs.Fields.{placed, part_within, part_of, get_str_call, get_bytes_call};
ghost use Rattle.scalar.specs.Answers.{Gives, got_part};
ghost use Rattle.scalar.specs.Runs.{payload_to, RunIn};

use crate::runs;
use crate::runs::Run;
use crate::taken::Taken;
use format::Refusal;

// Where a payload is: bytes of the key from a place on, or the first ones of the scratch buffer.
#[derive(Clone, Copy, Debug, PartialEq, Eq)]
pub enum Place {
    InKey { at: usize, len: usize },
    InScratch { len: usize },
}

// Hands out the payload behind a mark, whose run is measured. Scratch is filled only where an escape occurs and there is room.
fn place_payload(key: &[u8], scratch: &mut [u8], run: Run) -> Result<Taken<Place>, Refusal>
    requires { RunIn key.now run.end run.len }
    ensures { Gives (placed 0 (run.end + 1) (payload_to run.end key.now) scratch.old) result scratch.new }
{
    let len = run.len;
    let used = run.end + 1;
    if len + 1 == run.end {
        return Ok(Taken {
            value: Place::InKey { at: 1, len },
            used,
        });
    }
    if scratch.len() < len {
        return Err(Refusal::NoRoom(len));
    }
    runs::unescape_into(&key[1..run.end], scratch, 0);
    Ok(Taken {
        value: Place::InScratch { len },
        used,
    })
}

// Reads text. UTF-8 is judged on the payload, before any room is asked for.
pub fn get_str(bytes: &[u8], scratch: &mut [u8]) -> Result<Taken<Place>, Refusal>
    ensures { Gives (get_str_call bytes.now scratch.old) result scratch.new }
{
    let run = runs::marked_run(bytes, format::MARK_STRING)?;
    if !runs::payload_is_text(&bytes[1..run.end], run.len) {
        return Err(Refusal::BadString);
    }
    place_payload(bytes, scratch, run)
}

// Reads bytes.
pub fn get_bytes(bytes: &[u8], scratch: &mut [u8]) -> Result<Taken<Place>, Refusal>
    ensures { Gives (get_bytes_call bytes.now scratch.old) result scratch.new }
{
    let run = runs::marked_run(bytes, format::MARK_BYTES)?;
    place_payload(bytes, scratch, run)
}

// So many bytes from a place on, or the empty part where they do not lie within the slice.
fn part(bytes: &[u8], at: usize, len: usize) -> &[u8]
    ensures { result.now ≡ part_within bytes.now at len }
{
    if bytes.len() < at {
        return &bytes[..0];
    }
    if bytes.len() - at < len {
        return &bytes[..0];
    }
    let end = at + len;
    &bytes[at..end]
}

// The part that holds the payload. A refused one is the empty part, and so is one that does not lie within its slice.
pub fn payload<'a>(key: &'a [u8], scratch: &'a [u8], got: Result<Taken<Place>, Refusal>) -> &'a [u8]
    ensures { result.now ≡ part_of key.now scratch.now (got_part got) }
{
    let Ok(taken) = got else {
        return &key[..0];
    };
    match taken.value {
        Place::InKey { at, len } => part(key, at, len),
        Place::InScratch { len } => part(scratch, 0, len),
    }
}
