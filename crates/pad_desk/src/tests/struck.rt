//! A disk that is struck in one of its calls, while threads import keys.
ghost use Rattle.std.specs.Prelude.{◌≤◌};

use super::callers::{struck_desk, take};
use super::visitors::{Errand, visit_on_threads};
use crate::StepOut;
use disk_core::Strike;
use pad_steps::{Command, DiskWord, Out, Question, Reply, Step, Told};
use pad_words::{KeyName, Session};
use std::alloc::Global;
use std::sync::Wait;
use std::test::Fail;
use std::thread::Threads;
use turnstile::Entry;

/// The keys that the sessions 1 and 2 import.
const NAMES: [&str; 6] = ["A0", "A1", "A2", "B0", "B1", "B2"];

/// What became of an import.
#[derive(Clone, Copy)]
enum Import {
    /// It was answered as done.
    Done,
    /// A call of the disk failed or was cut in the step that ended it.
    InDoubt,
    /// It was refused, or never asked for.
    Refused,
}

// The id that was drawn for the import of this key, if this is the entry of its submit.
fn id_drawn(entry: &Entry<Step, StepOut>, name: &str) -> Option<u32> {
    match (&entry.op, entry.outcome.outs.items().first()) {
        (Step::Submit(_, _, Command::ImportKey(request)), Some(Out::Request(_, id)))
            if request.name.text() == name.as_bytes() => { Some(*id) }
        _ => None,
    }
}

// What this entry says of the request with this id, if that ended in it.
fn end_in(entry: &Entry<Step, StepOut>, id: u32) -> Option<Import> {
    for out in entry.outcome.outs.items() {
        if let Out::Ended(_, ended, reply) = out
            && *ended == id
        {
            return Some(match (reply, &entry.outcome.word) {
                (Reply::Ok(_), _) => Import::Done,
                (_, DiskWord::Failed(_) | DiskWord::Cut(_)) => Import::InDoubt,
                _ => Import::Refused,
            });
        }
    }
    None
}

// What became of the import of this key.
fn import_of(entries: &[Entry<Step, StepOut>], name: &str) -> Import {
    let mut drawn = None;
    for entry in entries {
        if let Some(id) = id_drawn(entry, name) {
            drawn = Some(id);
        }
        if let Some(id) = drawn
            && let Some(end) = end_in(entry, id)
        {
            return end;
        }
    }
    Import::Refused
}

// Whether a call of the disk failed or was cut.
fn is_struck(entries: &[Entry<Step, StepOut>]) -> bool {
    entries.iter().any(|entry| matches!(entry.outcome.word, DiskWord::Failed(_) | DiskWord::Cut(_)))
}

// Whether the keys that are there are those whose import was done, and at most one that is in doubt.
fn are_whole(entries: &[Entry<Step, StepOut>], keys: &[KeyName]) -> bool {
    let mut known = 0usize;
    let mut doubted = 0usize;
    for name in NAMES {
        let is_there = keys.iter().any(|key| key.text() == name.as_bytes());
        match (import_of(entries, name), is_there) {
            (Import::Done, true) => known = known.saturating_add(1),
            (Import::InDoubt, true) => doubted = doubted.saturating_add(1),
            (Import::Done, false) | (Import::Refused, true) => return false,
            (Import::InDoubt, false) | (Import::Refused, false) => {}
        }
    }
    doubted <= 1 && known.saturating_add(doubted) == keys.len()
}

/// Two threads import three keys each over a disk of which this call is struck; then the device boots again. Whether it
/// was struck, and its keys are whole.
pub fn keys_stay_whole<R: Threads + Wait + Sync>(
    rt: &R,
    alloc: Global,
    call: u32,
    strike: Strike,
) -> Result<bool, Fail>
    requires { 1 ≤ call }
{
    let session = Session::new(9).ok_or("1 to 16")?;
    let (desk, mut pass) = struck_desk(alloc, call, strike)?;
    take(rt, &desk, &mut pass, Step::Boot)?;
    let mut pass = visit_on_threads(rt, alloc, &desk, pass, Errand::Import, 1, 2);
    take(rt, &desk, &mut pass, Step::Off)?;
    take(rt, &desk, &mut pass, Step::Boot)?;
    take(rt, &desk, &mut pass, Step::Open(session))?;
    let given = take(rt, &desk, &mut pass, Step::Ask(session, Question::Names))?;
    let (_pad, _disk, history) = desk.close(rt, pass);
    match given.outcome.outs.items().first() {
        Some(Out::Told(_, Told::Names(names))) => {
            Ok(is_struck(history.items()) && are_whole(history.items(), names.items()))
        }
        _ => Ok(false),
    }
}
