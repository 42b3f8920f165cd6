//! The entry of a PIN, of data or of a key part, key by key.
//!
//! [`Entry`] is what an entry is by its rules, and holds no digit: it tells what a press does from the number of
//! digits alone. The digits stand beside it, where a caller keeps them apart, or with it in an [`EntryRun`].
#![tactic(auto)]

mod faults;
pub mod laws;
mod rules;
mod run;
pub mod seen;

pub use faults::EntryFault;
pub use rules::Entry;
pub use run::EntryRun;
pub use seen::Seen;

#[cfg(test)]
mod tests;
