//! A gate before each line of a lane.

/// What a lane passes before each of its lines. It may block.
pub trait Gate {
    /// The lane with this number has come to its line at this place, counted from 1; after its last line, to the place that
    /// follows.
    fn pass(&self, lane: u8, place: u32);
}

/// A gate at which no lane waits.
#[derive(Clone, Copy, Debug, PartialEq, Eq)]
pub struct OpenGate;

impl Gate for OpenGate {
    fn pass(&self, _lane: u8, _place: u32) {}
}
