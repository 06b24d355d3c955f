// The beginnings of escaped runs: the bytes of a payload, each 00 of it written 00 FF, before the run's end.
ghost use Rattle.std.specs.Prelude.{◌≡◌, ◌+◌, ◌≤◌, length, drop};
ghost use Rattle.format.specs.Scalar.{run_start};
ghost use Rattle.format.specs.Fields.{put};

// How many bytes the run of a payload has before its end: its own, and one more for each zero.
pub fn start_len(payload: &[u8]) -> usize
    ensures { result ≡ length (run_start payload.now) }
{
    let zeros = blocks::count_zeros(payload);
    payload.len() + zeros
}

// Writes what is left of a payload from a place in it on, each zero escaped, and returns the place behind it.
fn write_rest(buf: &mut [u8], at: usize, payload: &[u8], from: usize) -> usize
    requires { (from ≤ length payload.now) × (at + length (run_start (drop from payload.now)) ≤ length buf.old) }
    ensures { (result ≡ at + length (run_start (drop from payload.now))) × (buf.new ≡ put buf.old at (run_start (drop from payload.now))) }
{
    let mut o: usize = at;
    let mut i: usize = from;
    loop {
        let z = blocks::zero_from(payload, i);
        blocks::copy_to(buf, o, payload, i, z);
        o += z - i;
        if payload.len() <= z {
            break;
        }
        buf[o] = format::MARK_TERM;
        o += 1;
        buf[o] = format::MARK_ESCAPE;
        o += 1;
        i = z + 1;
    }
    o
}

// Writes a payload as a run from a place on, before the run's end, and returns the place behind it. Long bytes before the first zero go in one pass.
pub fn write_start(buf: &mut [u8], at: usize, payload: &[u8]) -> usize
    requires { at + length (run_start payload.now) ≤ length buf.old }
    ensures { (result ≡ at + length (run_start payload.now)) × (buf.new ≡ put buf.old at (run_start payload.now)) }
{
    let i = blocks::copy_clear(buf, at, payload);
    write_rest(buf, at + i, payload, i)
}
