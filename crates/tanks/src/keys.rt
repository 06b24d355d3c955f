// Keys of the tanks, and whether one lies between two ends.
use std::io;

// Does a key lie at or above the lower end and below the upper?
pub fn between(key: &[u8], lower: &[u8], upper: &[u8]) -> bool {
    blocks::compare(key, lower).is_ge() && blocks::compare(key, upper).is_lt()
}

// A key's bytes in its buffer, none of a refused one, which is printed.
pub fn key<'a>(
    rt: &impl Print,
    ty: &[u32],
    words: &[u64],
    pool: &[u8],
    out: &'a mut [u8; 32],
) -> io::Result<&'a [u8]> {
    let r = encode::encode_key(ty, words, pool, out);
    show::wrote(rt, r.map(|done| done.length), out)
}
