//! The modes of operation of triple DES (FIPS 81), and message authentication codes by DES.
#![tactic(auto)]

mod blocks;
pub mod laws;
mod mac;
mod message;
mod modes;
#[cfg(test)]
mod tests;

pub use mac::{Mac, MacKind};
pub use modes::{cbc, ecb};
