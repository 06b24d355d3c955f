// Characters of three bytes in a row, by blocks.
ghost use Rattle.std.specs.Prelude.{◌≡◌, true, ◌+◌, ◌*◌, ◌≤◌, ◌<◌, length, drop};
ghost use Rattle.format.specs.Utf8.{utf8};
ghost use Rattle.text.specs.Rows.{Lies};

// Is a byte in range j places behind the first of characters of three bytes? Those that begin with E0 or ED are left out: their second byte has a range of its own.
fn lies(b: u8, j: usize) -> bool
    ensures { result ≡ true → Lies j b }
{
    if j % 3 == 0 {
        matches!(b, 0xE1..=0xEF) && b != 0xED
    } else {
        matches!(b, 0x80..=0xBF)
    }
}

// Are there m characters of three bytes from i on? All bytes are asked, with no exit: the loop is vector code. A no says nothing.
fn triples(s: &[u8], i: usize, m: usize) -> bool
    requires { (i ≤ length s.now) × (m ≤ 16) }
    ensures { result ≡ true → (i + 3 * m ≤ length s.now) × (utf8 (drop i s.now) ≡ utf8 (drop (i + 3 * m) s.now)) }
{
    let k = 3 * m;
    if s.len() - i < k {
        return false;
    }
    let mut all = true;
    for j in 0..k {
        all &= lies(s[i + j], j);
    }
    all
}

// The place behind the blocks of m characters of three bytes from a place on.
fn past_triples(s: &[u8], from: usize, m: usize) -> usize
    requires { (from ≤ length s.now) × (0 < m) × (m ≤ 16) }
    ensures { (from ≤ result) × (result ≤ length s.now) × (utf8 (drop from s.now) ≡ utf8 (drop result s.now)) }
{
    let mut i: usize = from;
    while triples(s, i, m) {
        i += 3 * m;
    }
    i
}

// The place behind such blocks, wide ones and then narrow ones, where the first byte may begin one.
pub fn past_threes(s: &[u8], from: usize) -> usize
    requires { from ≤ length s.now }
    ensures { (from ≤ result) × (result ≤ length s.now) × (utf8 (drop from s.now) ≡ utf8 (drop result s.now)) }
{
    if !matches!(s.get(from), Some(0xE1..)) {
        return from;
    }
    let wide = past_triples(s, from, 16);
    past_triples(s, wide, 4)
}
