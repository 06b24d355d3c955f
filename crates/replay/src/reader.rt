// chars_next: bytes-behind-the-mark place finished = refusal detail given code place finished. chars: bytes = refusal detail how-it-ended place codes.
// names: bytes = refusal detail whether-get_str-accepts codes of the name that it decodes.
use tuple::answers::Length;
use tuple::reader;

pub fn next(line: &[u8], bytes: &[u8]) -> bool {
    let s = reader::tuple_chars_next(bytes, lines::size(line, 2), lines::size(line, 3) == 1);
    lines::are_decimals(
        line,
        5,
        &[
            s.refusal as u64,
            s.detail,
            s.given as u64,
            s.code as u64,
            s.at,
            u64::from(s.done),
        ],
    )
}

// How many characters were given, the refusal that ended them, and where.
#[derive(Clone, Copy)]
struct Characters {
    count: u64,
    refusal: u32,
    at: u64,
}

// The characters of a string behind its mark. A reader that has ended gives only the end, so it is asked as often as there may be codes, and once more.
fn run(text: &[u8], ended: bool, codes: &mut [u64; 8193]) -> Characters {
    let mut count = 0;
    let mut refusal = 0;
    let mut at = 0;
    let mut done = ended;
    for code in codes {
        let s = reader::tuple_chars_next(text, at as usize, done);
        *code = u64::from(s.code);
        count = std::num::wrapping_add_u64(count, s.given as u64);
        refusal = std::num::wrapping_add_u32(refusal, s.refusal);
        at = s.at;
        done = s.done;
    }
    Characters { count, refusal, at }
}

fn whole(line: &[u8], o: Length, r: Characters, codes: &[u64; 8193]) -> bool {
    lines::are_decimals(
        line,
        3,
        &[o.refusal as u64, o.detail, r.refusal as u64, r.at],
    ) & lines::is_words(line, 7, r.count as usize, codes)
}

// The bytes behind a string's mark.
fn behind(bytes: &[u8]) -> &[u8] {
    bytes.get(1..).unwrap_or(bytes)
}

// A reader that was opened and came to the end shows the name; one that refused shows none.
fn named(line: &[u8], o: Length, r: Characters, codes: &[u64; 8193]) -> bool {
    let ends = o.refusal == 0 && r.refusal == 0;
    let count = if ends { r.count } else { 0 };
    lines::are_decimals(line, 3, &[u64::from(o.refusal), o.detail, u64::from(ends)])
        & lines::is_words(line, 6, count as usize, codes)
}

pub fn chars(line: &[u8], bytes: &[u8]) -> bool {
    let o = reader::tuple_str_chars(bytes);
    let mut codes = [0; 8193];
    let r = run(behind(bytes), o.refusal != 0, &mut codes);
    whole(line, o, r, &codes)
}

pub fn names(line: &[u8], bytes: &[u8]) -> bool {
    let o = reader::tuple_str_chars(bytes);
    let mut codes = [0; 8193];
    let r = run(behind(bytes), o.refusal != 0, &mut codes);
    named(line, o, r, &codes)
}
