//! Whole runs: a script is read line by line, run over a disk step by step, and printed as a transcript.
#![tactic(auto)]

mod command_line;
mod discard;
mod generated;
mod generated_run;
mod replay;
mod script_reader;
mod script_run;
mod tally;
mod top;

pub use command_line::store_path;
pub use top::{Ended, run_pinpad};
