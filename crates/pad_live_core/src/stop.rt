//! Why a lane or the worker ends early.

/// Why a lane or the worker ends early.
#[derive(Clone, Copy, Debug, PartialEq, Eq)]
pub enum Stop {
    /// Memory was wanting.
    NoMemory,
    /// Another had to end.
    Told,
    /// The history was full.
    Full,
}
