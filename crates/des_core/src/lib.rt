//! The Data Encryption Standard, DES (FIPS 46-3): a block of eight bytes enciphered and deciphered by a key of eight; and
//! triple DES, by a key of 8, 16 or 24 bytes.
#![tactic(auto)]

mod cipher;
mod joined_tables;
mod key_schedule;
pub mod laws;
mod permutation;
mod permuted;
mod rounds;
mod tables;
#[cfg(test)]
mod tests;
mod triple;

pub use cipher::{Des, des_decrypt, des_encrypt};
pub use joined_tables::joined;
pub use permuted::PermutedBlock;
pub use triple::{BadLength, Tdea, block_at};
