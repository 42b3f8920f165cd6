//! Sixteen lanes over one pad.
use super::runs::words_of;
use disk_core::{Calls, Counted, MemDisk, MemSink, MemSource};
use pad_desk::{History, StepOut};
use pad_live_core::{Gate, run_live};
use pad_steps::{Command, Out, Question, Step, Told};
use pad_words::{Octets, Session};
use std::alloc::Global;
use std::sync::Wait;
use std::sync::atomic::{AtomicU64, Ordering};
use std::test::Fail;
use std::thread;
use std::thread::Threads;
use turnstile::Entry;

/// How many lanes there are.
const LANES: u8 = 16;

/// How many commands each lane has done.
const COMMANDS: u32 = 8;

/// All lanes but the first wait until that has booted the device.
#[derive(Drop)]
pub struct AfterBoot {
    booted: AtomicU64,
}

impl AfterBoot {
    pub fn new() -> AfterBoot {
        AfterBoot {
            booted: AtomicU64::new(0),
        }
    }
}

impl Gate for AfterBoot {
    fn pass(&self, lane: u8, place: u32) {
        match (lane, place) {
            (1, 2) => self.booted.store(1, Ordering::SeqCst),
            (1, _) => {}
            _ => {
                for _ in 0..1_000_000 {
                    if self.booted.load(Ordering::SeqCst) != 0 {
                        return;
                    }
                    thread::yield_now();
                }
            }
        }
    }
}

// Each lane opens the session with its number, and has its commands done one after another.
fn script(alloc: Global) -> Result<Octets, Fail> {
    let mut text = Octets::empty(alloc);
    text.append(b"@1 boot\n")?;
    for lane in 1..LANES + 1 {
        text.append(format!(in alloc; "@{lane} open {lane}\n")?.as_bytes())?;
        for number in 1..COMMANDS + 1 {
            let lines = format!(in alloc;
                "@{lane} submit {lane} 0 maintain on\n@{lane} await {lane} reply #{number}\n"
            )?;
            text.append(lines.as_bytes())?;
        }
    }
    Ok(text)
}

/// Runs the sixteen lanes, and gives the history.
pub fn sixteen_lanes<R: Threads + Wait + Sync>(
    rt: &R,
    alloc: Global,
    gate: &AfterBoot,
) -> Result<History, Fail> {
    let words = words_of(alloc, &["live"])?;
    let fails = Calls::of(&[]).ok_or("no call")?;
    let mut source = MemSource::new(script(alloc)?, 100, fails);
    let fails = Calls::of(&[]).ok_or("no call")?;
    let mut sink = Counted::new(MemSink::new(alloc, 1 << 18, fails)?);
    let disk = MemDisk::new();
    let ended = run_live(
        rt,
        alloc,
        words.as_slice(),
        &mut source,
        &mut sink,
        disk,
        gate,
    );
    if ended.status != 0 {
        return Err("a run to its end")?;
    }
    Ok(ended.history)
}

/// What a lane does next.
#[derive(Clone, Copy)]
enum Next {
    Open,
    Submit,
    /// It waits for the reply of the request with this id.
    Await(u32),
}

// What a lane does after this entry, unless this is not what it was to do: a poll changes nothing.
fn after(next: Next, step: &Step, outs: &[Out]) -> Option<Next> {
    match (next, step, outs.first()) {
        (Next::Open, Step::Open(_), Some(Out::Told(_, Told::Opened))) => Some(Next::Submit),
        (Next::Submit, Step::Submit(_, 0, Command::MaintainPin(true)), Some(Out::Request(_, id))) =>
            { Some(Next::Await(*id)) }
        (Next::Await(id), Step::Ask(_, Question::Reply(asked)), Some(Out::Told(_, told))) => {
            match told {
                Told::Pending if *asked == id => Some(next),
                Told::Reply(told_id, _) if *asked == id && *told_id == id => Some(Next::Submit),
                _ => None,
            }
        }
        _ => None,
    }
}

// The session of a lane's step.
fn session_of(step: &Step) -> Option<Session> {
    match step {
        Step::Open(session) => Some(*session),
        Step::Submit(session, _, _) => Some(*session),
        Step::Ask(session, _) => Some(*session),
        _ => None,
    }
}

// Whether the entries of this session are those of its lane's script, in its order.
fn is_lane(entries: &[Entry<Step, StepOut>], session: Session) -> bool {
    let mut next = Next::Open;
    let mut done = 0u32;
    for entry in entries {
        if session_of(&entry.op) == Some(session) {
            match after(next, &entry.op, entry.outcome.outs.items()) {
                Some(Next::Submit) => {
                    done = done.saturating_add(1);
                    next = Next::Submit;
                }
                Some(other) => next = other,
                None => return false,
            }
        }
    }
    // Once after it was opened, and once after each reply.
    matches!(next, Next::Submit) && done == COMMANDS + 1
}

// How many steps the worker took.
fn worked(entries: &[Entry<Step, StepOut>]) -> usize {
    let mut count = 0usize;
    for entry in entries {
        if matches!(entry.op, Step::Begin | Step::Finish) {
            count = count.saturating_add(1);
        }
    }
    count
}

// How many entries are of no lane's session: those of the worker, and the boot.
fn without_session(entries: &[Entry<Step, StepOut>]) -> usize {
    let mut count = 0usize;
    for entry in entries {
        if session_of(&entry.op).is_none() {
            count = count.saturating_add(1);
        }
    }
    count
}

/// Whether the history has each lane's script in its order, Begin and Finish of each command, and one boot.
pub fn are_sixteen(history: &History) -> bool {
    let entries = history.items();
    for number in 1..LANES + 1 {
        match Session::new(number) {
            Some(session) if is_lane(entries, session) => {}
            _ => return false,
        }
    }
    let commands = LANES as usize * COMMANDS as usize;
    worked(entries) == 2 * commands && without_session(entries) == 2 * commands + 1
}
