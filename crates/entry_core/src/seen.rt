//! What came of a key.

use pad_steps::{Completion, Shown};

/// What an active key does to an entry.
#[derive(Clone, Copy, Debug, PartialEq, Eq)]
pub enum Seen {
    Ignored,
    Took(Shown),
    Ended(Shown, Completion),
}
