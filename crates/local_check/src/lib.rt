//! The local check of a PIN, and the standard PIN work: blocks and checks.
#![tactic(auto)]

mod checking;
pub mod laws;
#[cfg(test)]
mod tests;
mod work;

pub use checking::{admit_check, check, ready_check};
pub use work::StandardWork;
