//! Small values: a decimal digit, a session's number, nibbles, names, lists of bytes, and want of memory.
#![tactic(auto)]

pub mod bytes;
pub mod names;
pub mod numbers;

pub use bytes::{Block, Nibbles, Octets, exclusive_or};
pub use names::KeyName;
pub use numbers::{Digit, Session};
use thiserror::Error;

/// Memory was wanting. What was asked for was not done.
#[derive(Clone, Copy, Debug, PartialEq, Eq, Error)]
#[error("memory was wanting")]
pub struct NoMemory;

/// Whether a cipher encrypts or decrypts.
#[derive(Clone, Copy, Debug, PartialEq, Eq)]
pub enum Direction {
    Encrypt,
    Decrypt,
}
