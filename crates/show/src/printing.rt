// Where the programs print: each piece is tried once, and one that fails is dropped, so that a program goes on and ends as ever, whatever becomes of its output.
ghost use Rattle.std.specs.Prelude.{IsOk, OnOk};
ghost use Rattle.std.specs.Io.KnownBytes.{Appends};

use std::fmt;
use std::io::{self, ErrorKind, Write};

// Writes all of it, or fails at the first write that fails or takes nothing. One that a signal interrupts has failed: it is not tried again.
pub fn put<W: Write>(to: &mut W, bytes: &[u8]) -> io::Result<()>
    ensures { OnOk result (Appends (W.contents to.old) (W.contents to.new) bytes.now) }
{
    let mut rest = bytes;
    while !rest.is_empty() {
        match to.write(rest)? {
            0 => return Err(ErrorKind::WriteZero.into()),
            n => rest = &rest[n..],
        }
    }
    Ok(())
}

// A writer that is given the pieces of a text as they are formatted.
#[derive(Drop)]
struct Pieces<W>(W);

impl<W: Write> Write for Pieces<W> {
    fn write(&mut self, piece: &[u8]) -> io::Result<usize> {
        let _ = put(&mut self.0, piece);
        Ok(piece.len())
    }

    fn flush(&mut self) -> io::Result<()> {
        Ok(())
    }
}

/// What prints, of which no print fails: a piece that can't be written is dropped, and the next is tried.
#[derive(Clone, Copy)]
pub struct Out<P>(pub P);

impl<P: Print> Print for Out<P> {
    fn print<D: fmt::Display + Drop>(&self, value: D) -> io::Result<()>
        ensures { IsOk result }
    {
        let _ = write!(Pieces(io::writer(&self.0)), "{value}");
        Ok(())
    }

    fn println<D: fmt::Display + Drop>(&self, value: D) -> io::Result<()>
        ensures { IsOk result }
    {
        let _ = writeln!(Pieces(io::writer(&self.0)), "{value}");
        Ok(())
    }

    fn write_all(&self, bytes: &[u8]) -> io::Result<()>
        ensures { IsOk result }
    {
        let _ = put(&mut io::writer(&self.0), bytes);
        Ok(())
    }
}
