// encode_typed and encode_key: type words pool room = refusal detail length zeros bytes. decode_typed and decode_key: type bytes room-of-words
// room-of-pool = refusal detail begun words pool the-words the-pool. check_key: type bytes = refusal detail begun.
use crate::answers;
use tuple::answers::Sheet;
use tuple::sheets;

fn encoded(line: &[u8], key: bool, ty: &[u32], words: &[u64], pool: &[u8]) -> bool {
    let mut out = answers::lent();
    let n = answers::room(line, 4, &out);
    let a = if key {
        sheets::tuple_encode_key(ty, words, pool, &mut out[..n])
    } else {
        sheets::tuple_encode_typed(ty, words, pool, &mut out[..n])
    };
    lines::are_decimals(line, 6, &[a.refusal as u64, a.detail, a.length, a.zeros])
        & answers::written(line, 10, 0, a.length as usize, &out)
}

pub fn encode(line: &[u8], key: bool, ty: &[u32]) -> bool {
    let mut words = [0; 8192];
    let mut pool = [0; 72000];
    let w = lines::words(line, 2, &mut words);
    let p = lines::bytes(line, 3, &mut pool);
    encoded(line, key, ty, &words[..w], &pool[..p])
}

fn filled(line: &[u8], a: Sheet, words: &[u64; 8192], pool: &[u8; 72000]) -> bool {
    lines::are_decimals(
        line,
        6,
        &[a.refusal as u64, a.detail, a.begun, a.words, a.pool],
    ) & answers::written_words(line, 11, a.words as usize, words)
        & answers::written(line, 12, 0, a.pool as usize, pool)
}

pub fn decode(line: &[u8], key: bool, ty: &[u32], bytes: &[u8]) -> bool {
    let mut words = answers::lent_words();
    let mut pool = answers::lent();
    let w = answers::word_room(line, 3, &words);
    let p = answers::room(line, 4, &pool);
    let a = if key {
        sheets::tuple_decode_key(ty, bytes, &mut words[..w], &mut pool[..p])
    } else {
        sheets::tuple_decode_typed(ty, bytes, &mut words[..w], &mut pool[..p])
    };
    filled(line, a, &words, &pool)
}

pub fn check(line: &[u8], ty: &[u32], bytes: &[u8]) -> bool {
    let a = sheets::tuple_check_key(ty, bytes);
    lines::are_decimals(line, 4, &[a.refusal as u64, a.detail, a.begun])
}
