//! The machine's commands and steps, and what it answers, as plain data.
#![tactic(auto)]

pub mod accounts;
pub mod answers;
pub mod commands;
mod copies;
mod formed;
pub mod lists;
pub mod steps;

pub use accounts::{are_decimal, is_pan};
pub use answers::{
    Answer, Completion, Event, KeyView, Out, Refusal, Reply, Shown, StatusView, Told,
};
pub use commands::{
    Algorithm, BlockRequest, CheckRequest, Command, CryptRequest, EntryKind, EntryRules,
    ExtraRequest, Form, ImportRequest, ImportSource, PartRules, PinRequest, Start, Verify,
};
pub use lists::{Names, Outs, Rows, Words};
pub use steps::{Class, Classes, DiskWord, Fate, Question, Step};
