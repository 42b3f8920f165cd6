//! Types that the definitions share with the code.

use key_attributes::{KeyRow, KeyValue};
use pad_steps::{Answer, PinRequest, Refusal};
use pad_words::{KeyName, Session};

/// The device: off, ready, stopped by a fault, or bad at a slot.
#[derive(Clone, Copy, Debug, PartialEq, Eq)]
pub enum Device {
    Off,
    Ready,
    Stopped,
    Bad(u8),
}

/// Whose a request is, and its id: all that a reply needs of it.
#[derive(Clone, Copy, Debug, PartialEq, Eq)]
pub struct Owner {
    pub id: u32,
    pub session: Session,
}

/// What a command in work comes to, before anything is done.
#[derive(Drop)]
pub enum Work {
    /// Nothing yet: an entry ends by a key.
    Waits,
    /// It is refused, and the refusal may accuse a key.
    Refuse {
        refusal: Refusal,
        accused: Option<KeyName>,
    },
    /// It is answered, and nothing else changes.
    Answer(Answer),
    /// From now on a used PIN is maintained, or is not.
    Maintain(bool),
    /// The slot gets the row, and the check value is answered. An import from the part buffer leaves it empty.
    Keep {
        slot: u8,
        row: KeyRow,
        check: Option<[u8; 3]>,
        from_part: bool,
    },
    /// The slot is emptied.
    Erase(u8),
    /// All slots are emptied.
    EraseAll,
    /// The PIN work answers, under these one or two keys, and draws so many fill words.
    Release {
        request: PinRequest,
        first: KeyValue,
        second: Option<KeyValue>,
        draws: u8,
    },
    /// The store is loaded.
    Load,
}
