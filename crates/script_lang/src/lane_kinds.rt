//! What a line of a lane script says.
use pad_steps::Step;
use pad_words::Session;

/// The id in a Cancel of a lane.
#[derive(Clone, Copy, Debug, PartialEq, Eq)]
pub enum LaneId {
    /// 0, which names every pending request of the session.
    Zero,
    /// The id of the lane's Submit with this number, counted from 1. Where it was refused, comes later or is not there,
    /// it is 4294967295.
    Nth(u32),
}

/// What one line of a lane does.
#[derive(Drop)]
pub enum LaneStep {
    /// A step that names no id.
    Plain(Step),
    /// A Cancel of a session.
    Cancel(Session, LaneId),
    /// One ask of a session for the reply of the lane's Submit with this number, counted from 1.
    AskReply(Session, u32),
    /// Waits until an entry runs.
    AwaitEntry,
    /// Asks for a session for the reply of the lane's Submit with this number, until it is not pending.
    AwaitReply(Session, u32),
}

/// The first word of a step that stands in lane scripts alone.
#[derive(Clone, Copy, Debug, PartialEq, Eq)]
pub enum LaneVerb {
    Cancel,
    Ask,
    Await,
}

/// A line of a lane script.
#[derive(Drop)]
pub enum LaneLine {
    /// No step: the line is empty, or a comment that begins with `#`.
    Blank,
    /// What the lane with this number, 1 to 16, does.
    At(u8, LaneStep),
}
