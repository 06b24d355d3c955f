// The static library for C: one export for each call of the library tuple, with that call's promise. include/tuple.h declares them.
#![tactic(auto)]

pub mod cursors;
pub mod fields;
pub mod keys;
pub mod reader;
pub mod sheets;
