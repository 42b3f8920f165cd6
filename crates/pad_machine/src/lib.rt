//! The machine: what it keeps, and its step.
#![tactic(auto)]

mod copies;
mod crypts;
mod doubt;
mod endings;
mod fates;
mod imports;
mod keyless;
mod pad;
mod parts;
mod pins;
mod prepared;
mod refusals;
mod running_entry;
mod saying;
mod shared_part;
mod submits;

pub use pad::{Pad, Stepped};
