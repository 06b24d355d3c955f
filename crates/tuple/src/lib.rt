// The calls of the boundary to C: one function for each call of the library, its answer a struct of numbers by value. The crate tuple_c exports them.
#![tactic(auto)]

pub mod answers;
pub mod cursors;
pub mod fields;
pub mod keys;
pub mod reader;
pub mod sheets;
pub mod steps;
