//! The part buffer of a secure key entry.
#![tactic(auto)]

mod part;
mod values;

pub use part::PartBuffer;
pub use values::xor;

#[cfg(test)]
mod tests;
