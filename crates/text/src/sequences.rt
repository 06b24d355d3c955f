// Well-formed sequences of bytes: the ranges of RFC 3629, section 4, and the code points.
ghost use Rattle.std.specs.Prelude.{◌≡◌, ◌≤◌};
ghost use Rattle.format.specs.Utf8.{is_tail, lead3, lead4, is2, is3, is4, code2, code3, code4};

// UTF8-tail.
fn tail(b: u8) -> bool
    ensures { result ≡ is_tail b }
{
    matches!(b, 0x80..=0xBF)
}

// The first two bytes of three.
#[tactic(auto, unfolding(format::specs::Utf8::lead3))]
fn leads3(a: u8, b: u8) -> bool
    ensures { result ≡ lead3 a b }
{
    match a {
        0xE0 => matches!(b, 0xA0..=0xBF),
        0xED => matches!(b, 0x80..=0x9F),
        0xE1..=0xEF => tail(b),
        _ => false,
    }
}

// The first two bytes of four.
#[tactic(auto, unfolding(format::specs::Utf8::lead4))]
fn leads4(a: u8, b: u8) -> bool
    ensures { result ≡ lead4 a b }
{
    match a {
        0xF0 => matches!(b, 0x90..=0xBF),
        0xF4 => matches!(b, 0x80..=0x8F),
        0xF1..=0xF3 => tail(b),
        _ => false,
    }
}

// Are these a character of two bytes?
pub fn two(a: u8, b: u8) -> bool
    ensures { result ≡ is2 a b }
{
    matches!(a, 0xC2..=0xDF) && tail(b)
}

// Are these a character of three bytes?
pub fn three(a: u8, b: u8, c: u8) -> bool
    ensures { result ≡ is3 a b c }
{
    leads3(a, b) && tail(c)
}

// Are these a character of four bytes?
pub fn four(a: u8, b: u8, c: u8, d: u8) -> bool
    ensures { result ≡ is4 a b c d }
{
    leads4(a, b) && tail(c) && tail(d)
}

// The code point of a character of two bytes.
pub fn code_of_2(a: u8, b: u8) -> u32
    requires { (0xC2 ≤ a) × (a ≤ 0xDF) × (0x80 ≤ b) × (b ≤ 0xBF) }
    ensures { result ≡ code2 a b }
{
    (u32::from(a) - 0xC0) * 0x40 + (u32::from(b) - 0x80)
}

// The code point of a character of three bytes.
pub fn code_of_3(a: u8, b: u8, c: u8) -> u32
    requires { (0xE0 ≤ a) × (a ≤ 0xEF) × (0x80 ≤ b) × (b ≤ 0xBF) × (0x80 ≤ c) × (c ≤ 0xBF) }
    ensures { result ≡ code3 a b c }
{
    (u32::from(a) - 0xE0) * 0x1000 + (u32::from(b) - 0x80) * 0x40 + (u32::from(c) - 0x80)
}

// The code point of a character of four bytes.
pub fn code_of_4(a: u8, b: u8, c: u8, d: u8) -> u32
    requires { (0xF0 ≤ a) × (a ≤ 0xF4) × (0x80 ≤ b) × (b ≤ 0xBF) × (0x80 ≤ c) × (c ≤ 0xBF) × (0x80 ≤ d) × (d ≤ 0xBF) }
    ensures { result ≡ code4 a b c d }
{
    (u32::from(a) - 0xF0) * 0x40000
        + (u32::from(b) - 0x80) * 0x1000
        + (u32::from(c) - 0x80) * 0x40
        + (u32::from(d) - 0x80)
}
