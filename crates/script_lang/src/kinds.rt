//! What a line of a script says, and which words lines and commands begin with.
use disk_core::Strike;
use pad_steps::Step;

/// A line of a script.
#[derive(Drop)]
pub enum Line {
    /// No step: the line is empty, or a comment that begins with `#`.
    Blank,
    /// The steps that are due, one after the other, until none is.
    Auto,
    /// One step.
    Do(Step),
    /// No step: the call of the disk with this number is armed, where 1 is the next.
    Arm(u32, Strike),
}

/// Why a line is not read.
#[derive(Clone, Copy, Debug, PartialEq, Eq)]
pub enum LineFault {
    /// The bytes are no line of the script's grammar.
    Outside,
    /// The bytes are a line, and memory for the bytes that it holds was wanting.
    NoMemory,
}

/// The first word of a line.
#[derive(Clone, Copy, Debug, PartialEq, Eq)]
pub enum LineVerb {
    Auto,
    Open,
    Close,
    Listen,
    Lock,
    Unlock,
    Submit,
    Cancel,
    Begin,
    Finish,
    Press,
    Tick,
    Ask,
    Off,
    Boot,
    Cut,
    Fail,
}

/// The first word of a command.
#[derive(Clone, Copy, Debug, PartialEq, Eq)]
pub enum CommandVerb {
    GetPin,
    GetData,
    KeyEntry,
    Maintain,
    PinBlock,
    Import,
    Delete,
    Init,
    Reset,
    Rsa,
    Crypt,
    LocalDes,
    Extra,
}

/// The first word of a question.
#[derive(Clone, Copy, Debug, PartialEq, Eq)]
pub enum QuestionVerb {
    Status,
    Key,
    Names,
    Reply,
}

/// The first word of what a power cut makes of bytes that were not synced.
#[derive(Clone, Copy, Debug, PartialEq, Eq)]
pub enum KeepVerb {
    Old,
    New,
    Fill,
}

/// The first word of the source of an import.
#[derive(Clone, Copy, Debug, PartialEq, Eq)]
pub enum SourceKind {
    Clear,
    Sealed,
    Part,
}
