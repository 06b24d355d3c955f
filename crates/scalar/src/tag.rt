// A union's tag: 52 and the discriminant as an unsigned integer.
ghost use Rattle.scalar.specs.Answers.{TagIn};

use crate::ints;

// The tag is the first len of the bytes.
#[derive(Clone, Copy)]
pub struct UnionTag {
    pub bytes: [u8; 6],
    pub len: usize,
}

impl UnionTag {
    pub const MARK: u8 = format::MARK_UNION;

    // the mark, the integer's mark and a u32
    pub const MAX_LEN: usize = 1 + 1 + 4;

    pub fn new(disc: u32) -> UnionTag
        ensures { TagIn disc result.bytes result.len }
    {
        let mut bytes = [0u8; UnionTag::MAX_LEN];
        bytes[0] = UnionTag::MARK;
        let len = ints::write_u64(&mut bytes, 1, u64::from(disc));
        UnionTag { bytes, len }
    }
}
