// Checks keys: reads a type and keys as text, and writes for each key whether it decodes. What is put for an input is the library's, piece by piece; that the
// pieces are together what is due follows from its contracts (keylines/proofs/CallLaws).
#![tactic(auto)]

ghost use Rattle.keylines.specs.Answers.{Counts, PieceAsked};

use keylines::{First, KEY_ROOM, Left, MAX_INPUT, PIECE_ROOM};
use std::fmt::Display;
use std::io;
use std::io::{Read, Stdin, Write};

// Reads to the end, or until the buffer is full: how much was read, and whether a read failed.
fn read_input(mut from: Stdin, buf: &mut [u8]) -> (usize, io::Result<()>)
    ensures { Counts result.0 buf.new }
{
    let mut n = 0;
    while n < buf.len() {
        match from.read(&mut buf[n..]) {
            Ok(0) => break,
            Ok(more) => n += more,
            Err(e) => return (n, Err(e)),
        }
    }
    (n, Ok(()))
}

// Writes the row of no type.
fn write_no_type(rt: &impl Print) -> io::Result<()> {
    let mut piece = [0; PIECE_ROOM];
    let n = keylines::put_no_type(&mut piece);
    show::put(&mut io::writer(rt), &piece[..n])
}

// Writes the rows of the key lines, piece by piece.
fn write_rows(rt: &impl Print, input: &[u8], lines: Left, ty: &[u32]) -> io::Result<()>
    requires { PieceAsked input.now ty.now lines }
{
    let mut key = [0; KEY_ROOM];
    let mut piece = [0; PIECE_ROOM];
    let mut left = lines;
    while left.at < input.len() {
        let put = keylines::put_piece(input, left, ty, &mut key, &mut piece);
        show::put(&mut io::writer(rt), &piece[..put.len])?;
        left = put.left;
    }
    Ok(())
}

// Says it on a line: in one write, which is tried once and dropped where it fails. The longest line, of a bad word, has 133 bytes.
fn say<D: Display + Drop>(err: &impl Print, text: D) {
    let mut room = [0; 160];
    let mut rest = room.as_mut_slice();
    let _ = writeln!(rest, "keylist: {text}");
    let said = 160usize.saturating_sub(rest.len());
    let _ = show::put(&mut io::writer(err), show::first(&room, said));
}

// Writes what is due for an input; why it has no type is said on a line of its own.
fn answer(rt: &impl Print, err: &impl Print, input: &[u8]) -> io::Result<()> {
    let mut ty = [0; format::MAX_TYPE_WORDS];
    match keylines::read_first(input, &mut ty) {
        Ok(First { words, left }) => write_rows(rt, input, left, &ty[..words]),
        Err(why) => {
            say(err, format_args!("no type: {why}"));
            write_no_type(rt)
        }
    }
}

// What was read is the input, also where a read failed: then this is said beside the answer. One byte more than is taken is read, so that too long an input shows.
fn main(rt: HostRuntime) {
    let mut input = [0; MAX_INPUT + 1];
    let err = rt.stderr();
    let (n, end) = read_input(rt.stdin(), &mut input);
    if end.is_err() {
        say(&err, "standard input can't be read to its end");
    }
    if answer(&rt, &err, &input[..n]).is_err() {
        say(&err, "standard output can't be written");
    }
}
