//! The record of a key: 96 bytes, in one spelling.
//!
//! | Bytes | Content |
//! |---|---|
//! | 0 | 0 where the record is empty, 1 where it is a key's |
//! | 1 | the length of the name, 1 to 32 |
//! | 2 to 33 | the name, then zero bytes |
//! | 34 to 35 | the uses, the higher byte first |
//! | 36 | the length of the value, 8, 16 or 24 |
//! | 37 to 60 | the value, then zero bytes |
//! | 61 to 95 | zero bytes |
//!
//! The empty record is 96 zero bytes. Every other content is outside the grammar.
#![tactic(auto)]

pub mod laws;
mod reading;
#[cfg(test)]
mod tests;
mod writing;

pub use reading::{OutsideGrammar, read_record};
pub use writing::write_record;

/// The number of bytes of a record.
pub const RECORD_BYTES: usize = 96;
