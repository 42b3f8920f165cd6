//! The keys of the pad, by their names: 64 slots, each with a row or empty. [`KeyTable`] has them in memory, and
//! [`StoredKeys`] over a store on a disk.
#![tactic(auto)]

pub mod laws;
mod loading;
mod replacing;
mod row_lists;
mod searching;
mod slot_index;
mod stored_keys;
#[cfg(test)]
mod stored_tests;
mod table;
#[cfg(test)]
mod test_keys;
#[cfg(test)]
mod tests;

use disk_core::DiskError;
pub use row_lists::{copy_rows, put_row, same_rows};
pub use stored_keys::StoredKeys;
pub use table::KeyTable;

/// Why a key may not be used.
#[derive(Clone, Copy, Debug, PartialEq, Eq)]
pub enum Denied {
    /// No key has the name.
    KeyNotFound,
    /// The key is under construction: a part of it is missing.
    KeyNoValue,
    /// The key lacks the use.
    UseViolation,
}

/// The name is absent, and all 64 slots are taken.
#[derive(Clone, Copy, Debug, PartialEq, Eq)]
pub struct TableFull;

/// No key has the name.
#[derive(Clone, Copy, Debug, PartialEq, Eq)]
pub struct KeyNotFound;

/// Why no rows were loaded.
#[derive(Clone, Copy, Debug, PartialEq, Eq)]
pub enum LoadFault {
    /// The disk had a fault.
    Disk(DiskError),
    /// A slot is bad: its cell is no record, or its name stands in a lower slot. This one is the lowest.
    BadStore(u8),
}

/// Why a row was not put.
#[derive(Clone, Copy, Debug, PartialEq, Eq)]
pub enum PutFault {
    /// The name is absent, and all 64 slots are taken.
    TableFull,
    /// The disk had a fault.
    Disk(DiskError),
}

/// Why no row was removed.
#[derive(Clone, Copy, Debug, PartialEq, Eq)]
pub enum RemoveFault {
    /// No key has the name.
    KeyNotFound,
    /// The disk had a fault.
    Disk(DiskError),
}

/// How many slots were emptied, and the fault that ended it, if one did.
#[derive(Clone, Copy, Debug, PartialEq, Eq)]
pub struct Erased {
    pub count: u8,
    pub fault: Option<DiskError>,
}
