//! What an import of a key comes to.
#![tactic(auto)]

mod deciding;
#[cfg(test)]
mod tests;
mod values;

pub use deciding::decide_import;

/// Why an import makes no row.
#[derive(Clone, Copy, Debug, PartialEq, Eq)]
pub enum ImportFault {
    /// The part buffer is wanted and empty, or the key under construction does not take this part.
    AccessDenied,
    /// The value is not of 8, 16 or 24 bytes, is longer than the key-encrypting key, or has another length than the key
    /// under construction.
    InvalidKeyLength,
}
