//! The printed text of a step, and of what it says.
#![tactic(auto)]

mod disk_words;
mod events;
mod lines;
pub mod printing;
mod questions;
mod refusals;
mod replies;
mod values;

pub use printing::{PrintFault, Printer};

#[cfg(test)]
mod tests;
