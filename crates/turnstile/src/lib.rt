//! One turn that many threads share, and one history of all calls, for any machine.
//!
//! A caller has a *pass*. A call waits for its turn, applies one operation to the machine, and enters the operation and
//! its outcome at the end of the history. Contracts see of a pass what it has seen of the history, which of the entries
//! are its own, how many passes it seated, what its glances told, and the passes that were joined into it. No running
//! value holds any of that.
//!
//! Nothing is said of progress, of fairness, or of the order of calls between passes that told each other nothing.
#![tactic(auto)]

mod calls;
mod held;
mod history;
pub mod laws;
mod machine;
mod rule;
mod sharing;
mod turn;
mod view;

pub use calls::{Given, Glance};
pub use history::History;
pub use machine::{CallFault, Entry, Machine};
pub use rule::Pass;
pub use sharing::{moves_between_threads, shared_by_threads};
pub use turn::Turn;

#[cfg(test)]
mod tests;
