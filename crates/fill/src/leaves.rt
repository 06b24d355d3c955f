// The values that are no groups, each by its mark. Where the bytes are no such value, or there is no room, any later place is the answer.
ghost use Rattle.std.specs.Prelude.{◌≡◌, ◌+◌, ◌<◌, ◌≤◌, false, [], ◌∷◌, length, take, drop, slice_index};
ghost use Rattle.format.specs.Scalar.{int_bytes, uint_bytes, ref_bytes};
ghost use Rattle.format.specs.Encode.{null_bytes};
ghost use Rattle.format.specs.Read.{number};
ghost use Rattle.format.specs.Fields.{put};
ghost use Rattle.fill.specs.Fill.{lent, standing, opens, Width, NumberFilled, RunFilled, LeafFilled, taken};

use scalar::runs::Run;

// Two words on the sheet: a kind and a number.
pub fn put_pair(words: &mut [u64], w: usize, kind: u64, x: u64)
    requires { w + 2 ≤ length words.old }
    ensures { words.new ≡ put words.old w (kind ∷ x ∷ []) }
{
    words[w] = kind;
    words[w + 1] = x;
}

// A blank: one word, and nothing of the pool. It gives the length of a null, which has its escape inside a group.
pub fn fill_null(words: &mut [u64], w: usize, depth: usize) -> usize
    requires { w < length words.old }
    ensures { (result ≡ length (null_bytes depth)) × (words.new ≡ put words.old w (0 ∷ [])) }
{
    words[w] = format::VALUE_NULL;
    if depth == 0 {
        return 1;
    }
    2
}

// How many bytes stand behind the mark of an unsigned integer.
fn width_at(bytes: &[u8], i: usize) -> usize
    requires { i < length bytes.now }
    ensures { Width bytes.now i result }
{
    let mark = bytes[i];
    if mark < format::MARK_INT_ZERO {
        return 0;
    }
    if format::MARK_INT_POS_MAX < mark {
        return 0;
    }
    let k = (mark - format::MARK_INT_ZERO) as usize;
    if bytes.len() - i <= k {
        return 0;
    }
    k
}

// The number that k bytes from a place on make: eight at once, less those behind, where there are as many.
fn number_at(bytes: &[u8], j: usize, k: usize) -> u64
    requires { (k ≤ 8) × (j + k ≤ length bytes.now) }
    ensures { result ≡ number 0 (take k (drop j bytes.now)) }
{
    if bytes.len() - j < 8 {
        return scalar::ints::read_number(&bytes[j..], k);
    }
    if k == 0 {
        return 0;
    }
    scalar::ints::read_number(&bytes[j..], 8) >> (64 - 8 * k)
}

// An unsigned integer, as a value or a discriminant.
pub fn fill_uint(bytes: &[u8], i: usize, words: &mut [u64], w: usize, kind: u64) -> usize
    requires { (i < length bytes.now) × (w + 2 ≤ length words.old) }
    ensures { NumberFilled uint_bytes kind bytes.now i words.old w result words.new }
{
    let k = width_at(bytes, i);
    let j = i + 1;
    let x = number_at(bytes, j, k);
    put_pair(words, w, kind, x);
    j + k
}

// A negative integer: its bytes are the low ones of its word less one, and the others would be FF. So it is what they make, less as many ones.
fn fill_negative(bytes: &[u8], i: usize, words: &mut [u64], w: usize) -> usize
    requires { (i < length bytes.now) × (w + 2 ≤ length words.old) × (slice_index bytes.now i < 0x48) }
    ensures { NumberFilled int_bytes 1 bytes.now i words.old w result words.new }
{
    let mark = bytes[i];
    if mark < format::MARK_INT_NEG_MIN {
        return bytes.len();
    }
    let k = (format::MARK_INT_ZERO - mark) as usize;
    if bytes.len() - i <= k {
        return bytes.len();
    }
    let j = i + 1;
    let ones: u64 = 0xffff_ffff_ffff_ffff >> (64 - 8 * k);
    let x = std::num::wrapping_sub_u64(number_at(bytes, j, k), ones);
    put_pair(words, w, format::VALUE_INT, x);
    j + k
}

// A signed integer.
fn fill_int(bytes: &[u8], i: usize, words: &mut [u64], w: usize) -> usize
    requires { (i < length bytes.now) × (w + 2 ≤ length words.old) }
    ensures { NumberFilled int_bytes 1 bytes.now i words.old w result words.new }
{
    if bytes[i] < format::MARK_INT_ZERO {
        return fill_negative(bytes, i, words, w);
    }
    fill_uint(bytes, i, words, w, format::VALUE_INT)
}

// A reference.
fn fill_ref(bytes: &[u8], i: usize, words: &mut [u64], w: usize) -> usize
    requires { (i < length bytes.now) × (w + 2 ≤ length words.old) }
    ensures { NumberFilled ref_bytes 4 bytes.now i words.old w result words.new }
{
    let j = i + 1;
    if bytes.len() - j < 8 {
        return bytes.len();
    }
    let x = scalar::ints::read_number(&bytes[j..], 8);
    put_pair(words, w, format::VALUE_FACT, x);
    j + 8
}

// A string or bytes. The text was judged when the key was measured.
fn fill_run(
    bytes: &[u8],
    i: usize,
    words: &mut [u64],
    w: usize,
    pool: &mut [u8],
    p: usize,
    kind: u64,
) -> usize
    requires { (i < length bytes.now) × (w + 2 ≤ length words.old) × (p ≤ length pool.old) }
    ensures { RunFilled kind bytes.now (standing i w p 0) (lent words.old pool.old) result (lent words.new pool.new) }
{
    let j = i + 1;
    match scalar::runs::measure_run(&bytes[j..]) {
        None => {
            put_pair(words, w, kind, 0);
            bytes.len()
        }
        Some(run) => {
            if pool.len() - p < run.len {
                put_pair(words, w, kind, 0);
                return bytes.len();
            }
            let end = j + run.end;
            put_pair(words, w, kind, run.len as u64);
            scalar::runs::payload_into(&bytes[j..end], pool, p, run.len);
            end + 1
        }
    }
}

// A value that is no group and no blank.
pub fn fill_leaf(
    bytes: &[u8],
    i: usize,
    words: &mut [u64],
    w: usize,
    pool: &mut [u8],
    p: usize,
) -> usize
    requires { (i < length bytes.now) × (w + 2 ≤ length words.old) × (p ≤ length pool.old) × (0 < slice_index bytes.now i) × (opens (slice_index bytes.now i) ≡ false) }
    ensures { LeafFilled bytes.now (standing i w p 0) (lent words.old pool.old) result (lent words.new pool.new) }
{
    match bytes[i] {
        format::MARK_STRING => fill_run(bytes, i, words, w, pool, p, format::VALUE_STR),
        format::MARK_BYTES => fill_run(bytes, i, words, w, pool, p, format::VALUE_BYTES),
        format::MARK_FACT_REF => fill_ref(bytes, i, words, w),
        _ => fill_int(bytes, i, words, w),
    }
}

// How many bytes of the pool a value with that mark took, by its second word. So a leaf's answer is one place, which comes back in a register.
pub fn pool_taken(mark: u8, x: u64) -> usize
    ensures { result ≡ taken mark x }
{
    match mark {
        format::MARK_STRING => x as usize,
        format::MARK_BYTES => x as usize,
        _ => 0,
    }
}
