// What the test programs print: bytes in hexadecimal, and the beginning of a buffer or the refusal; and where they print it.
#![tactic(auto)]

mod printing; // printing.rt: standard output, of which a failed write is dropped

ghost use Rattle.std.specs.Prelude.{◌≡◌, take, IfOk};
ghost use Rattle.show.specs.Wrote.{wrote_by};

use format::Refusal;
pub use printing::{Out, put};
use std::{fmt, io};

/// Bytes in hexadecimal.
#[derive(Clone, Copy)]
pub struct Hex<'a>(pub &'a [u8]);

impl<'a> fmt::Display for Hex<'a> {
    fn fmt<W: fmt::Write>(&self, f: &mut fmt::Formatter<W>) -> fmt::Result {
        for b in self.0 {
            write!(f, "{b:02x}")?;
        }
        Ok(())
    }
}

// The first n bytes, or all of a shorter one.
pub fn first(s: &[u8], n: usize) -> &[u8]
    ensures { result.now ≡ take n s.now }
{
    s.get(..n).unwrap_or(s)
}

// What a call wrote at a buffer's beginning, or its refusal, on a line. A line that can't be written is dropped.
pub fn line(rt: &impl Print, answer: Result<usize, Refusal>, out: &[u8]) {
    let _ = match answer {
        Ok(n) => println!(rt; "{}", Hex(first(out, n))),
        Err(e) => println!(rt; "{e}"),
    };
}

// The bytes that a call wrote at a buffer's beginning; none of a refused one, which is printed.
pub fn wrote<'a>(
    rt: &impl Print,
    answer: Result<usize, Refusal>,
    out: &'a [u8],
) -> io::Result<&'a [u8]>
    ensures { IfOk result (λ bytes. bytes.now ≡ wrote_by answer out.now) }
{
    match answer {
        Ok(n) => Ok(first(out, n)),
        Err(e) => {
            println!(rt; "{e}")?;
            Ok(&[])
        }
    }
}
