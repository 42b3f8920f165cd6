//! Sessions on threads: the lanes of a script, and the worker that does the pad's work beside them.
#![tactic(auto)]

mod asking;
mod awaiting;
pub mod bounds;
mod command_line;
mod gate;
mod jobs;
mod joins;
mod lane;
pub mod laws;
mod live;
mod printing;
mod run;
mod scopes;
mod sharing;
mod starts;
mod stop;
mod worker;

pub use command_line::live_seed;
pub use gate::{Gate, OpenGate};
pub use jobs::{LaneStart, Pending, SameLane};
pub use joins::{absorb, seat_lanes, worse};
pub use lane::{LaneEnd, run_lane};
pub use live::LanesEnd;
pub use printing::print_history;
pub use run::{LiveEnded, run_live};
pub use stop::Stop;
pub use worker::{WorkerEnd, run_worker};
