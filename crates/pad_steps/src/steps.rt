//! Steps, and what the disk and the loading come to in one.
use crate::commands::Command;
use crate::lists::Rows;
use key_source::Key;
use pad_words::{KeyName, Session};

#[derive(Clone, Copy, Debug, PartialEq, Eq)]
pub enum Class {
    Service,
    Execute,
}

/// Which events a session hears.
#[derive(Clone, Copy, Debug, PartialEq, Eq)]
pub struct Classes {
    pub service: bool,
    pub execute: bool,
}

#[derive(Drop)]
pub enum Question {
    Status,
    Key(KeyName),
    Names,
    Reply(u32),
}

/// One step of the machine.
#[derive(Drop)]
pub enum Step {
    Open(Session),
    Close(Session),
    Listen(Session, Classes),
    Lock(Session),
    Unlock(Session),
    Submit(Session, u32, Command),
    Cancel(Session, u32),
    Begin,
    Finish,
    Press(Key),
    Tick(u32),
    Ask(Session, Question),
    Off,
    Boot,
}

/// What the disk did in a step.
#[derive(Drop)]
pub enum DiskWord {
    Quiet,
    Done,
    Failed(u8),
    Cut(u8),
    Loaded(Rows),
    Bad(u8),
}

#[derive(Clone, Copy, Debug, PartialEq, Eq)]
pub enum Fate {
    First,
    Old,
    New,
    Other,
}
