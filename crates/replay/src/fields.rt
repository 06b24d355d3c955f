// get_i64, get_u64: bytes = refusal detail value used. get_str, get_bytes: bytes room-of-scratch = refusal detail source place length used payload.
// put_i64, put_u64, put_fact_id: room place word; put_str, put_bytes: room place bytes = refusal detail place-behind bytes.
use crate::answers;
use format::Refusal;
use scalar::{Place, Taken};
use tuple::answers::Part;
use tuple::fields;

pub fn integer(line: &[u8], signed: bool, bytes: &[u8]) -> bool {
    let a = if signed {
        fields::tuple_get_i64(bytes)
    } else {
        fields::tuple_get_u64(bytes)
    };
    answers::is_number(line, 3, a)
}

// Where the payload is, for the picker, to which all refusals are alike.
fn part(a: Part) -> Result<Taken<Place>, Refusal> {
    let len = a.len as usize;
    let used = a.used as usize;
    let value = match a.source {
        1 => {
            let at = a.at as usize;
            Place::InKey { at, len }
        }
        2 => Place::InScratch { len },
        _ => return Err(Refusal::UnexpectedEof),
    };
    Ok(Taken { value, used })
}

fn handed<'a>(line: &[u8], a: Part, bytes: &'a [u8], scratch: &'a [u8; 72000]) -> bool {
    lines::are_decimals(
        line,
        4,
        &[
            a.refusal as u64,
            a.detail,
            a.source as u64,
            a.at,
            a.len,
            a.used,
        ],
    ) & answers::held(
        line,
        10,
        a.source,
        scalar::payload(bytes, scratch, part(a)),
        scratch,
    )
}

pub fn payload(line: &[u8], text: bool, bytes: &[u8]) -> bool {
    let mut scratch = answers::lent();
    let n = answers::room(line, 2, &scratch);
    let a = if text {
        fields::tuple_get_str(bytes, &mut scratch[..n])
    } else {
        fields::tuple_get_bytes(bytes, &mut scratch[..n])
    };
    handed(line, a, bytes, &scratch)
}

// A word or a payload put by the call of a number.
fn put_by(line: &[u8], call: &[u8], payload: &[u8]) -> bool {
    let mut out = answers::lent();
    let n = answers::room(line, 1, &out);
    let at = lines::size(line, 2);
    let word = lines::size(line, 3) as u64;
    let a = match call {
        b"put_i64" => fields::tuple_put_i64(&mut out[..n], at, word),
        b"put_u64" => fields::tuple_put_u64(&mut out[..n], at, word),
        b"put_fact_id" => fields::tuple_put_fact_id(&mut out[..n], at, word),
        b"put_str" => fields::tuple_put_str(&mut out[..n], at, payload),
        _ => fields::tuple_put_bytes(&mut out[..n], at, payload),
    };
    answers::wrote(line, 5, a, at, &out)
}

pub fn put(line: &[u8], call: &[u8]) -> bool {
    let mut payload = [0; 72000];
    let p = lines::bytes(line, 3, &mut payload);
    put_by(line, call, &payload[..p])
}
