// Names under two tags, 0A and 0A 00, that begin with given bytes: by tank those whose keys lie between the ends, beside what their bytes say; then the same with
// wrong ends.
use crate::names::{Name, begins, blank};
use show::{Hex, first};
use std::io;

// What is looked for, and among what: the kind of the names, a list of them with a slash between two, the tank's tag, and how a name begins.
#[derive(Clone, Copy)]
struct Search<'a> {
    kind: u32,
    list: &'a [u8],
    tank: &'a [u8],
    start: &'a [u8],
}

impl<'a> Search<'a> {
    // Does a name of a tank belong to what is looked for? By the bytes: the tank's own tag, and a name that begins so, which a blank never does.
    fn is_for(self, tank: &[u8], name: &[u8]) -> bool {
        !blank(name) && tank == self.tank && begins(name, self.start)
    }
}

// How many names lie between the ends, how many do not, and of how many their bytes say otherwise.
#[derive(Clone, Copy, Default, Drop)]
struct Tally {
    inside: u64,
    outside: u64,
    otherwise: u64,
}

impl Tally {
    fn count(&mut self, lies: bool, begins: bool) {
        let place = if lies {
            &mut self.inside
        } else {
            &mut self.outside
        };
        *place = place.saturating_add(1);
        if lies != begins {
            self.otherwise = self.otherwise.saturating_add(1);
        }
    }

    fn line(self, rt: &impl Print) -> io::Result<()> {
        print!(rt; "    {} in, {} out, ", self.inside, self.outside)?;
        if self.otherwise == 0 {
            println!(rt; "all as by their beginnings")
        } else {
            println!(rt; "{} not as by their beginnings", self.otherwise)
        }
    }
}

// Does the key of a record lie between the ends? A refused one is printed.
fn record_in(
    rt: &impl Print,
    kind: u32,
    words: &[u64],
    pool: &[u8],
    lower: &[u8],
    upper: &[u8],
) -> io::Result<bool> {
    let mut out = [0u8; 32];
    match encode::encode_key(&[5, 2, 3, 7, kind], words, pool, &mut out) {
        Ok(done) => {
            let key = first(&out, done.length);
            Ok(blocks::compare(key, lower).is_ge() && blocks::compare(key, upper).is_lt())
        }
        Err(e) => {
            println!(rt; "{e}")?;
            Ok(false)
        }
    }
}

// A record's pool: the tag, and the name behind it. None where there is no room for both.
fn join<'a>(tag: &[u8], name: &[u8], pool: &'a mut [u8; 16]) -> &'a [u8] {
    let n = tag.len();
    if 16 < n || 16 - n < name.len() {
        return &[];
    }
    let end = n + name.len();
    pool[..n].copy_from_slice(tag);
    pool[n..end].copy_from_slice(name);
    &pool[..end]
}

fn lies_in(
    rt: &impl Print,
    kind: u32,
    tag: &[u8],
    name: &[u8],
    lower: &[u8],
    upper: &[u8],
) -> io::Result<bool> {
    let n = tag.len() as u64;
    if blank(name) {
        return record_in(rt, kind, &[5, 2, 3, n, 0], tag, lower, upper);
    }
    let mut pool = [0u8; 16];
    let both = join(tag, name, &mut pool);
    let words = [5, 2, 3, n, u64::from(kind), name.len() as u64];
    record_in(rt, kind, &words, both, lower, upper)
}

// Prints the names under one tag that lie between the ends, and counts all.
fn tank_line(
    rt: &impl Print,
    search: Search,
    tag: &[u8],
    lower: &[u8],
    upper: &[u8],
    tally: &mut Tally,
) -> io::Result<()> {
    print!(rt; "    tank {}:", Hex(tag))?;
    for name in search.list.split(|b| *b == b'/') {
        let lies = lies_in(rt, search.kind, tag, name, lower, upper)?;
        if lies {
            print!(rt; " {}", Name(name))?;
        }
        tally.count(lies, search.is_for(tag, name));
    }
    println!(rt; "")
}

fn taken_in(rt: &impl Print, search: Search, lower: &[u8], upper: &[u8]) -> io::Result<()> {
    let mut tally = Tally::default();
    println!(rt; "{} to {}", Hex(lower), Hex(upper))?;
    tank_line(rt, search, b"\x0a", lower, upper, &mut tally)?;
    tank_line(rt, search, b"\x0a\x00", lower, upper, &mut tally)?;
    tally.line(rt)
}

// Up to FF behind the lower end.
fn to_ff(rt: &impl Print, search: Search, lower: &[u8]) -> io::Result<()> {
    let mut upper = [0u8; 32];
    match ends::above_field(lower, &mut upper) {
        Ok(n) => taken_in(rt, search, lower, first(&upper, n)),
        Err(e) => println!(rt; "{e}"),
    }
}

fn to_strinc(rt: &impl Print, search: Search, lower: &[u8]) -> io::Result<()> {
    let mut upper = [0u8; 32];
    match ends::strinc(lower, &mut upper) {
        Ok(n) => taken_in(rt, search, lower, first(&upper, n)),
        Err(e) => println!(rt; "{e}"),
    }
}

// Behind the lower end's n bytes the buffer has zeros, so that one byte more keeps the run's end.
fn wrong_ends(rt: &impl Print, search: Search, buffer: &[u8], n: usize) -> io::Result<()> {
    let run = first(buffer, n.saturating_add(1));
    print!(rt; "  FF in place of strinc ")?;
    to_ff(rt, search, first(buffer, n))?;
    print!(rt; "  the run's end kept ")?;
    to_strinc(rt, search, run)?;
    print!(rt; "  the run's end kept, FF in place of strinc ")?;
    to_ff(rt, search, run)
}

fn look(rt: &impl Print, search: Search) -> io::Result<()> {
    let Search {
        kind,
        tank,
        start,
        ..
    } = search;
    let ty = [5, 2, 3, 7, kind];
    let words = [5, 1, 3, tank.len() as u64];
    let mut lower = [0u8; 32];
    let mut upper = [0u8; 32];
    println!(rt; "{} of tank {}", Name(start), Hex(tank))?;
    print!(rt; "  the call ")?;
    match key::starting_with(&ty, &words, tank, start, &mut lower, &mut upper) {
        Ok(ends) => {
            let low = first(&lower, ends.lower);
            taken_in(rt, search, low, first(&upper, ends.upper))?;
            wrong_ends(rt, search, &lower, ends.lower)
        }
        Err(e) => println!(rt; "{e}"),
    }
}

// A search for each beginning of such a list.
fn each(rt: &impl Print, kind: u32, list: &[u8], tank: &[u8], starts: &[u8]) -> io::Result<()> {
    for start in starts.split(|b| *b == b'/') {
        look(
            rt,
            Search {
                kind,
                list,
                tank,
                start,
            },
        )?;
    }
    Ok(())
}

fn colours(rt: &impl Print, list: &[u8]) -> io::Result<()> {
    each(rt, 2, list, b"\x0a", b"re//re\x00/\xc3/\x80")?;
    each(rt, 2, list, b"\x0a\x00", b"re")
}

pub fn searches(rt: &impl Print) -> io::Result<()> {
    println!(rt; "colour names")?;
    colours(
        rt,
        b"r/rd/re/re\x00/re\x00\x00/re\x00d/red/reed/rf/\xc3\xa9/\xc3\xa9cru/-",
    )?;
    println!(rt; "names of bytes")?;
    each(
        rt,
        3,
        b"/\x0a/\x0a\x00/\x0a\x00\x00/\x0a\x00\xff/\x0a\xff/\x0a\xff\xff/\x0b/\xff/\xff\x00/-",
        b"\x0a",
        b"\x0a//\x0a\x00/\x0a\x00\xff/\x0a\xff/\xff\x00",
    )
}
