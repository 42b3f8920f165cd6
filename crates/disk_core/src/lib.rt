//! The outside of the program: where its bytes come from, where they go, and the disk.
//!
//! A source and a sink each count the calls that failed, and a call answers [`Failed`] only where that
//! count rose. So a clause of a program can hold each report of a fault to one that happened. A disk counts
//! its faults and its power cuts in the same way, and [`disk`] says what a crash may leave of it.
#![tactic(auto)]

pub mod arming;
pub mod counted_sink;
pub mod disk;
pub mod failing_calls;
pub mod flaky_disk;
mod host_faults;
pub mod laws;
pub mod memory_disk;
pub mod memory_sink;
pub mod memory_source;
pub mod standard_input;
pub mod standard_output;
pub mod traits;

pub use arming::count_call;
pub use counted_sink::{Counted, give_all};
pub use disk::{ArmDisk, DISK_BYTES, Disk, DiskError, Keep, PowerDisk, Strike};
pub use failing_calls::Calls;
pub use flaky_disk::FlakyDisk;
pub use memory_disk::MemDisk;
pub use memory_sink::MemSink;
pub use memory_source::MemSource;
pub use standard_input::StdSource;
pub use standard_output::StdSink;
pub use traits::{Failed, Sink, Source};

#[cfg(test)]
mod disk_tests;
#[cfg(test)]
mod tests;
