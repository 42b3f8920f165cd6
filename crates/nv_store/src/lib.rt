//! Slots on a disk. Each is replaced whole or not at all, whenever the power goes.
//!
//! A store has 64 slots with a cell of 96 bytes each. Its bytes are 64 selectors, one for each slot, and then two
//! halves for each slot; the parity of the selector names the half that counts. A replacement writes the new cell into
//! the half that does not count, syncs, writes the selector and syncs again.
#![tactic(auto)]

pub mod laws;
mod places;
mod store;

pub use store::{CELL_BYTES, SLOTS, Store};

#[cfg(test)]
mod tests;
