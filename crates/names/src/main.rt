// Scrolls stored names as a panel does, a step a character, and prints a name on a line: its bytes, the refusal of an opening, the characters' code points, the end or
// a refusal behind them, and one step more; then what get_str answers to the same bytes.
#![tactic(auto)]

ghost use Rattle.std.specs.Prelude.{◌≡◌, ◌<◌};
ghost use Rattle.names.specs.Steps.{start, with, Gives, Shows};

use format::Refusal;
use scalar::{Place, Taken};
use show::{Hex, Out};
use std::io;

// How many steps are taken of each name: the cells of the panel.
const STEPS: usize = 12;

// A step, as an element of an array.
#[derive(Clone, Copy)]
struct Seen {
    step: Result<Option<u32>, Refusal>,
}

// A reader's opening and its first steps.
#[derive(Clone, Copy)]
struct Given {
    opened: Result<(), Refusal>,
    seen: [Seen; STEPS],
}

fn begun(opened: Result<(), Refusal>) -> Given
    ensures { result ≡ start opened }
{
    let seen = [Seen { step: Ok(None) }; STEPS];
    Given { opened, seen }
}

// One step more.
fn noted(given: Given, i: usize, step: Result<Option<u32>, Refusal>) -> Given
    requires { i < 12 }
    ensures { result ≡ with given i step }
{
    let mut g = given;
    g.seen[i] = Seen { step };
    g
}

// A new reader of a stored name, and its first steps.
fn read(name: &[u8]) -> Given
    ensures { Gives name.now result }
{
    let o = chars::str_chars(name);
    let mut reader = o.chars;
    let mut given = begun(o.opened);
    for i in 0..STEPS {
        let step = chars::next(&mut reader);
        given = noted(given, i, step);
    }
    given
}

// What the panel shows of a name, beside get_str's answer.
#[derive(Clone, Copy)]
struct Panel {
    given: Given,
    got: Result<Taken<Place>, Refusal>,
}

// The cells hold the beginning of the name that get_str decodes, where it accepts.
fn beside(name: &[u8], scratch: &mut [u8]) -> Panel
    ensures { Shows name.now scratch.old result scratch.new }
{
    let given = read(name);
    let got = scalar::get_str(name, scratch);
    Panel { given, got }
}

// The steps up to the end or a refusal, and one more.
fn print_steps(rt: &impl Print, given: Given) -> io::Result<()> {
    let mut last = false;
    for seen in given.seen {
        match seen.step {
            Ok(Some(code)) => print!(rt; " U+{code:04x}")?,
            Ok(None) => print!(rt; " end")?,
            Err(why) => print!(rt; " {why}")?,
        }
        if last {
            break;
        }
        last = !matches!(seen.step, Ok(Some(_)));
    }
    Ok(())
}

fn print_given(rt: &impl Print, given: Given) -> io::Result<()> {
    if let Err(why) = given.opened {
        print!(rt; " {why}")?;
    }
    print_steps(rt, given)
}

// A name that get_str decodes, or its refusal, at a line's end.
fn print_got(
    rt: &impl Print,
    name: &[u8],
    scratch: &[u8],
    got: Result<Taken<Place>, Refusal>,
) -> io::Result<()> {
    match got {
        Ok(_) => println!(rt; "; get_str [{}]", Hex(scalar::payload(name, scratch, got))),
        Err(why) => println!(rt; "; get_str {why}"),
    }
}

fn scratch_line(rt: &impl Print, name: &[u8], scratch: &mut [u8]) -> io::Result<()> {
    let panel = beside(name, scratch);
    print!(rt; "{}:", Hex(name))?;
    print_given(rt, panel.given)?;
    print_got(rt, name, scratch, panel.got)
}

fn name_line(rt: &impl Print, name: &[u8]) -> io::Result<()> {
    let mut scratch = [0u8; 32];
    scratch_line(rt, name, &mut scratch)
}

// The same with too little scratch.
fn short_line(rt: &impl Print, name: &[u8]) -> io::Result<()> {
    let mut scratch = [0u8; 3];
    scratch_line(rt, name, &mut scratch)
}

fn main(rt: HostRuntime) -> io::Result<()> {
    let rt = &Out(rt);
    // plain: one character, a name longer than the panel, the empty name
    name_line(rt, b"\x21\x41\x00")?;
    name_line(rt, b"\x21ultramarine blue\x00")?;
    name_line(rt, b"\x21\x00")?;
    // characters of two, three and four bytes, and an escaped zero
    name_line(rt, b"\x21\xc3\xa9\x00\xff\x41\x00")?;
    name_line(
        rt,
        b"\x21\xc3\xa9\xe2\x82\xac\xf0\x9f\x98\x80\x00\xff\x7a\x00",
    )?;
    // too little scratch for a name with an escape: the panel shows it all the same
    short_line(rt, b"\x21\xc3\xa9\x00\xff\x41\x00")?;
    // bytes behind the run
    name_line(rt, b"\x21\x41\x00\x80")?;
    // no text: a byte that leads nothing, an escape within a character
    name_line(rt, b"\x21\x41\x80\x00")?;
    name_line(rt, b"\x21\x41\x80\x00\x00")?;
    name_line(rt, b"\x21\xc2\x00\xff\x00")?;
    // too few bytes for the lead, where get_str says that it is no text; and the other way round
    name_line(rt, b"\x21\xe2\x00")?;
    name_line(rt, b"\x21\x80")?;
    // no end
    name_line(rt, b"\x21")?;
    name_line(rt, b"\x21\x41")?;
    // refused openings: another mark, no bytes
    name_line(rt, b"\x22\x00")?;
    name_line(rt, b"")
}
