//! What a session is told of the lock.

use pad_words::Session;

/// What a session is told that asks for the lock.
#[derive(Clone, Copy, Debug, PartialEq, Eq)]
pub enum LockAnswer {
    /// It holds the lock.
    Granted,
    /// It waits. This session holds the lock.
    Waiting(Session),
}

/// The session does not hold the lock.
#[derive(Clone, Copy, Debug, PartialEq, Eq)]
pub struct NotLocked;
