//! The desk: one pad for applications on threads.
//!
//! Each application has a *pass*. A call waits for its turn, takes one step of the pad over its disk, and enters the step
//! and what it came to at the end of one history. So each answered call stands in one legal history that begins with all
//! that its caller had seen. Nothing is said of progress, of fairness, or of the order of calls between passes that told
//! each other nothing.
#![tactic(auto)]

mod answers;
mod desk;
pub mod laws;
mod machine;
mod outcome;
mod sharing;
mod told_reply;

pub use answers::{Collected, Submitted, Worked, step_due};
pub use desk::{Desk, DeskFault, DeskPass, History};
pub use machine::PadAndDisk;
pub use outcome::{StepOut, StepOuts};
pub use sharing::{moves_between_threads, shared_by_threads};
pub use told_reply::ToldReply;

#[cfg(test)]
mod tests;
