// A step for which all memory is taken, before anything is done.

use crate::running_entry::RunningEntry;
use flat_machine::types::{Owner, Work};
use key_attributes::KeyRow;
use pad_steps::{Answer, Classes, Command, EntryKind, Out, Refusal};
use pad_words::Session;

/// What a step comes to, with all memory that it takes. It holds no key of a press.
#[derive(Drop)]
pub enum Prepared {
    /// Nothing happens.
    Nothing,
    /// This is said, and nothing else happens.
    Say(Out),
    /// The session is opened.
    Open(Session),
    /// The session is closed.
    Close(Session),
    /// The session stands in the line for the lock.
    Lock(Session),
    /// The session, which holds the lock, lets go of it.
    Unlock(Session),
    /// The session's request waits, with this limit in ticks and this command.
    Submit(Session, u32, Command),
    /// The session hears these classes.
    Listen(Session, Classes),
    /// The requests that the session, of this floor, names by this id end. There are so many.
    Cancel(Session, u32, u32, u16),
    /// The clock shows so many ticks, and the requests that are due then end.
    Tick(u64),
    /// The request with this id comes into work. It is no entry.
    Begin(u32),
    /// The entry is refused as it is taken.
    RefuseEntry(Owner, Refusal),
    /// The entry comes into work: whose it is, and what is entered.
    StartEntry(Owner, EntryKind),
    /// The command in work comes to this, and the answer in it stands here once more, to be told.
    Finish(Owner, Work, Option<Answer>),
    /// RESET loads the store. The rows that are kept stand here once more, with room for those that are loaded.
    Reset(Owner, Vec<(u8, KeyRow)>),
    /// A key is pressed in this entry.
    Press(RunningEntry),
    /// The disk is stopped, and the device goes off.
    Off,
    /// The disk is started, and the store is loaded. The rows that are kept stand here once more, with room for those that
    /// are loaded.
    Boot(Vec<(u8, KeyRow)>),
}
