// A row of what is written: four numbers in decimal, parted by tabs, and a line feed.
ghost use Rattle.std.specs.Prelude.{◌≡◌, ◌+◌, ◌≤◌, ◌<◌, length};
ghost use Rattle.format.specs.Keylist.{decimal, row};
ghost use Rattle.keylines.specs.Answers.{Put, NumberPut, RowPut, row_of};

use decode::Refused;

// A number's digits.
fn put_decimal(out: &mut [u8], at: usize, n: u64) -> usize
    requires { at + length (decimal n) ≤ length out.old }
    ensures { Put out.old out.new at result (decimal n) }
{
    if n < 10 {
        out[at] = b'0' + n as u8;
        return at + 1;
    }
    let end = put_decimal(out, at, n / 10);
    out[end] = b'0' + (n % 10) as u8;
    end + 1
}

// A number's digits, and the byte behind them.
fn put_number(out: &mut [u8], at: usize, n: u64, behind: u8) -> usize
    requires { at + length (decimal n) < length out.old }
    ensures { NumberPut out.old out.new at result n behind }
{
    let end = put_decimal(out, at, n);
    out[end] = behind;
    end + 1
}

// The row of a line: its place, refusal, detail and values begun.
pub fn put_row(out: &mut [u8], at: usize, place: u64, no: u32, detail: u64, begun: u64) -> usize
    requires { at + length (row place no detail begun) ≤ length out.old }
    ensures { Put out.old out.new at result (row place no detail begun) }
{
    let a = put_number(out, at, place, b'\t');
    let b = put_number(out, a, u64::from(no), b'\t');
    let c = put_number(out, b, detail, b'\t');
    put_number(out, c, begun, b'\n')
}

// No row of a line that keylist reads is longer.
pub const MAX_ROW: usize = 59;

// The row of what a line tells, where the longest has room.
pub fn put_told(out: &mut [u8], at: usize, place: u64, told: Result<usize, Refused>) -> usize
    requires { (place < 100000) × (at + MAX_ROW ≤ length out.old) }
    ensures { RowPut out.old out.new at result (row_of place told) }
{
    match told {
        Ok(begun) => put_row(out, at, place, 0, 0, begun as u64),
        Err(Refused { why, begun }) => {
            put_row(out, at, place, why.number(), why.detail(), begun as u64)
        }
    }
}
