// The tuple format: its definitions stand in specs/, the laws about them in proofs/. The code here names the format's constants and its refusals, which every crate
// above shares.
#![tactic(auto)]

mod refusal; // refusal.rt: why a call says no

pub use refusal::Refusal;

pub const MARK_NULL: u8 = 0x00;

pub const MARK_STRING: u8 = 0x21;

pub const MARK_RECORD: u8 = 0x22;

pub const MARK_INT_NEG_MIN: u8 = 0x40;

pub const MARK_INT_NEG_MAX: u8 = 0x47;

pub const MARK_INT_ZERO: u8 = 0x48;

pub const MARK_INT_POS_MIN: u8 = 0x49;

pub const MARK_INT_POS_MAX: u8 = 0x50;

pub const MARK_FACT_REF: u8 = 0x51;

pub const MARK_UNION: u8 = 0x52;

pub const MARK_BYTES: u8 = 0x53;

pub const MARK_TERM: u8 = 0x00;

pub const MARK_ESCAPE: u8 = 0xFF;

// The kinds on a type sheet.
pub const KIND_INT: u32 = 1;

pub const KIND_STR: u32 = 2;

pub const KIND_BYTES: u32 = 3;

pub const KIND_FACT: u32 = 4;

pub const KIND_RECORD: u32 = 5;

pub const KIND_UNION: u32 = 6;

// Word 7 before a type makes it optional. It is no kind: behind it another stands.
pub const KIND_OPTIONAL: u32 = 7;

// The kinds on a value sheet, whose words are wider.
pub const VALUE_NULL: u64 = 0;

pub const VALUE_INT: u64 = 1;

pub const VALUE_STR: u64 = 2;

pub const VALUE_BYTES: u64 = 3;

pub const VALUE_FACT: u64 = 4;

pub const VALUE_RECORD: u64 = 5;

pub const VALUE_UNION: u64 = 6;

// The limits of document 01.
pub const MAX_RECORD_DEPTH: u32 = 256;

pub const MAX_SHEET_GROUPS: usize = 320;

pub const MAX_TYPE_WORDS: usize = 4096;

pub const MAX_VALUE_WORDS: usize = 1048576;

pub const MAX_POOL_BYTES: usize = 1048576;

// A sheet's discriminants are below it.
pub const DISCRIMINANTS: u64 = 4294967296;

// How many sequences a predicate has: what a reference leaves divided by it is its sequence, how often it goes in its predicate.
pub const SEQUENCES: u64 = 0x100_0000_0000;

pub const PREDICATE_ID_SIZE: usize = 4;

pub const MAX_KEY_BYTES: usize = 65535 - PREDICATE_ID_SIZE;

pub const FACT_REF_FIELD_LEN: usize = 9;
