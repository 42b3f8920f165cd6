//! The line of sessions for the lock of the device.
#![tactic(auto)]

mod answers;
mod lock;

pub use answers::{LockAnswer, NotLocked};
pub use lock::Lock;

#[cfg(test)]
mod tests;
