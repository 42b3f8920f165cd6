//! Lane scripts, read whole into the steps of their sixteen lanes.
//!
//! A lane script is text. Each of its lines is blank, or gives one step to one of the lanes 1 to 16. A line has at
//! most 4,096 bytes and ends with a line feed, and there are at most 65,536 of them. The first line that is none of
//! these is the bad one, and nothing is made of a script that has one.
#![tactic(auto)]

mod lanes;
mod reading;
#[cfg(test)]
mod tests;

pub use lanes::Lanes;
pub use reading::{ScriptFault, read_lanes};
