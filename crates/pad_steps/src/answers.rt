//! What a step says: replies, answers to questions, and events.
use crate::lists::Names;
use crate::steps::Classes;
use key_attributes::Uses;
use key_source::Key;
use pad_words::{Block, KeyName, Nibbles, Octets, Session};

#[derive(Clone, Copy, Debug, PartialEq, Eq)]
pub enum Completion {
    Auto,
    Enter,
    Cancel,
    Help,
    Fdk(u8),
}

/// What an event shows of a key.
#[derive(Clone, Copy, Debug, PartialEq, Eq)]
pub enum Shown {
    Masked,
    Plain(Key),
}

#[derive(Drop)]
pub enum Answer {
    Done,
    Entered(u8, Completion),
    Figures(Nibbles, Completion),
    Part(u8, Completion, Option<[u8; 3]>),
    Block(Block),
    /// Two blocks, the left one first.
    Wide(Block, Block),
    Checked(bool),
    Crypt(Octets),
    Mac(Block),
    Key(Option<[u8; 3]>),
}

#[derive(Drop)]
pub enum Refusal {
    NoSession,
    AlreadyOpen,
    ConnectionLost,
    Locked(Session),
    QueueFull(u8),
    UnsuppCommand,
    FormatNotSupported,
    ModeNotSupported,
    InvalidData,
    HardwareError,
    BadStore(u8),
    MinimumLength,
    NoActiveKeys,
    KeyNotSupported,
    KeyNotFound,
    KeyNoValue,
    UseViolation,
    AccessDenied,
    InvalidKeyLength,
    DuplicateKey(KeyName),
    TableFull,
    NoPin,
    LengthError,
    Canceled,
    Timeout,
    InvalidReqId,
    NotLocked,
}

#[derive(Drop)]
pub enum Reply {
    Ok(Answer),
    No(Refusal),
}

#[derive(Clone, Copy, Debug, PartialEq, Eq)]
pub struct StatusView {
    pub state: u8,
    pub keys: u8,
    pub holder: Option<Session>,
    pub entry: bool,
    pub pin: bool,
    pub pending: u8,
}

#[derive(Drop)]
pub struct KeyView {
    pub name: KeyName,
    pub uses: Uses,
    pub length: u8,
    pub check: Option<[u8; 3]>,
}

#[derive(Drop)]
pub enum Told {
    Opened,
    Closed,
    Listening(Classes),
    Granted,
    Waiting(Session),
    Released,
    Canceled(u16),
    Status(StatusView),
    Key(KeyView),
    Names(Names),
    Pending,
    Reply(u32, Reply),
    No(Refusal),
}

#[derive(Drop)]
pub enum Event {
    EnterData,
    Key(Shown),
    Initialized,
    IllegalKeyAccess(KeyName, Refusal),
}

/// One thing that the machine says to a session.
#[derive(Drop)]
pub enum Out {
    Request(Session, u32),
    Refused(Session, Refusal),
    Ended(Session, u32, Reply),
    Told(Session, Told),
    Event(Session, Event),
}
