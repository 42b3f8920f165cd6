//! Why an entry is refused.
ghost use Rattle.std.specs.Prelude.{◌≡◌};

use pad_steps::Refusal;

/// Why an entry is refused as it begins.
#[derive(Clone, Copy, Debug, PartialEq, Eq)]
pub enum EntryFault {
    /// The least number of digits exceeds the greatest.
    MinimumLength,
    /// No key is active.
    NoActiveKeys,
    /// A mask has a key that the pad or this kind of entry has not, or a terminating key that cannot terminate.
    KeyNotSupported,
}

impl EntryFault {
    ghost use Rattle.entry_core.specs.Presses.{refusal_of};

    /// The refusal of the command that asked for the entry.
    pub fn refusal(self) -> Refusal
        ensures { result ≡ refusal_of self }
    {
        match self {
            EntryFault::MinimumLength => Refusal::MinimumLength,
            EntryFault::NoActiveKeys => Refusal::NoActiveKeys,
            EntryFault::KeyNotSupported => Refusal::KeyNotSupported,
        }
    }
}
