//! A disk in a file, over a file that is read and written at a place.
#![tactic(auto)]

pub mod file;
pub mod file_disk;
pub mod memory_file;

pub use file::{FileError, HostFile, RandomAccessFile};
pub use file_disk::{FileDisk, OpenFault, lengthen};
pub use memory_file::MemFile;

#[cfg(test)]
mod tests;
