//! What contracts see of a pass. No value of these types is made.
use std::collections::LinkedList;

/// An entry of the history, with the number of the pass that made it.
pub struct MadeEntry<O, R> {
    pub op: O,
    pub outcome: R,
    pub by: LinkedList<u64>,
}

/// A pass as another knows it: its number, how many passes it seated, and the places of its entries.
pub struct KnownPass {
    pub number: LinkedList<u64>,
    pub seated: u64,
    pub mine: LinkedList<u64>,
}

/// How far a pass is in a call.
pub enum Stage {
    /// It has no ticket.
    Idle,
    /// It has this ticket.
    Waiting(u64),
    /// Its turn has come.
    Served,
    /// It was joined into another, and is no pass any more.
    Spent,
}

/// A pass: its stage; its number, which is that of its maker followed by its rank among the passes that its maker seated;
/// how many passes it seated; the places of its own entries; the history that it has seen; its notes, which are the
/// lengths and statuses of its glances; the passes that were joined into it, and theirs; and the machine's origin.
pub struct PassView<O, R> {
    pub stage: Stage,
    pub number: LinkedList<u64>,
    pub seated: u64,
    pub mine: LinkedList<u64>,
    pub seen: LinkedList<MadeEntry<O, R>>,
    /// What a pass that was joined into it had seen, until the two are compared. Empty between calls.
    pub told: LinkedList<MadeEntry<O, R>>,
    pub notes: LinkedList<(u64, u64)>,
    pub ended: LinkedList<KnownPass>,
    /// What the machine was made with, which no operation changes.
    pub origin: LinkedList<u64>,
}
