//! The requests of a run, over any command and any reply: pending ones in a slab, linked in order of their ids, and the
//! replies of ended ones in a list by id.
#![tactic(auto)]

pub mod laws;
mod links;
mod lookups;
mod nodes;
mod queue;
pub mod requests;
#[cfg(test)]
mod tests;

pub use queue::{Found, Queue, QueueFault};
pub use requests::{Request, RequestRow};
