//! The held PIN. Its digits stand in memory of a fixed size, and no digit stays in it when they go.
#![tactic(auto)]

mod buffer;

pub use buffer::PinBuffer;
