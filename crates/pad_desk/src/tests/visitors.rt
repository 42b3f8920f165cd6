//! Applications that visit one desk, each on a thread and with a session of its own.
ghost use Rattle.std.specs.Prelude.{◌+◌, ◌<◌, ◌≤◌};
ghost use Rattle.std.specs.Thread.{IsSync};
ghost use Rattle.turnstile.specs.Turns.{IsPassOf};

use super::callers::{MemoryDesk, MemoryPass};
use super::encryptions::encryption;
use crate::{Collected, StepOut, Submitted};
use pad_steps::{Command, ImportRequest, ImportSource, Out, Question, Step, Told, Verify};
use pad_words::{KeyName, Octets, Session};
use std::alloc::Global;
use std::sync::Wait;
use std::thread;
use std::thread::{Threads, join};
use turnstile::Entry;

/// How many commands a visitor submits.
const REQUESTS: u8 = 3;

/// What a visitor's commands do.
#[derive(Clone, Copy)]
pub enum Errand {
    /// Each asks for the PIN to be kept.
    Maintain,
    /// Each imports a key: A0, A1 and A2 those of session 1, B0, B1 and B2 those of session 2, and so on.
    Import,
    /// Each encrypts a long message, and the second is canceled at once.
    Encrypt,
}

impl Errand {
    // Whether the command of this place is canceled.
    fn is_canceled(self, place: u8) -> bool {
        matches!(self, Errand::Encrypt) && place == 1
    }
}

/// The import of the key with this name.
pub fn import(alloc: Global, name: &[u8]) -> Option<Command> {
    let name = KeyName::read(name)?;
    match Octets::copy(alloc, &[0x5A; 16]) {
        Ok(value) => Some(Command::ImportKey(ImportRequest {
            name,
            source: ImportSource::Clear(value),
            uses: 1,
            verify: Verify::Nothing,
        })),
        Err(_) => None,
    }
}

// The command of this place of a session.
fn command_of(alloc: Global, errand: Errand, session: Session, place: u8) -> Option<Command>
    requires { place < 3 }
{
    match errand {
        Errand::Maintain => Some(Command::MaintainPin(true)),
        Errand::Import => import(alloc, &[b'@' + session.get(), b'0' + place]),
        Errand::Encrypt => encryption(alloc),
    }
}

// Submits a command, if it is well formed, and answers its id.
fn submit<R: Wait>(
    rt: &R,
    desk: &MemoryDesk,
    pass: &mut MemoryPass,
    session: Session,
    command: Command,
) -> Option<u32>
    requires { IsPassOf desk.now.turn pass.old }
    ensures { IsPassOf desk.now.turn pass.new }
{
    let step = Step::Submit(session, 0, command);
    if !step.is_well_formed() {
        return None;
    }
    let Step::Submit(session, limit, command) = step else {
        return None;
    };
    match desk.submit(rt, pass, session, limit, command) {
        Ok(Submitted::Request(id)) => Some(id),
        _ => None,
    }
}

// Asks whether the request has ended, and works, until it has.
fn wait_for<R: Wait>(rt: &R, desk: &MemoryDesk, pass: &mut MemoryPass, session: Session, id: u32)
    requires { IsPassOf desk.now.turn pass.old }
    ensures { IsPassOf desk.now.turn pass.new }
{
    for _ in rt.forever() {
        let _worked = desk.work(rt, pass);
        match desk.collect(rt, pass, session, id) {
            Ok(Collected::Pending) => thread::yield_now(),
            _ => return,
        }
    }
}

// Opens the session and has its commands done, and gives the pass back.
fn visit<R: Wait>(
    rt: &R,
    alloc: Global,
    desk: &MemoryDesk,
    mut pass: MemoryPass,
    errand: Errand,
    session: Session,
) -> MemoryPass
    requires { IsPassOf desk.now.turn pass }
    ensures { IsPassOf desk.now.turn result }
{
    let _opened = desk.call(rt, &mut pass, Step::Open(session));
    for place in 0..REQUESTS {
        if let Some(command) = command_of(alloc, errand, session, place)
            && let Some(id) = submit(rt, desk, &mut pass, session, command)
        {
            if errand.is_canceled(place) {
                let _canceled = desk.call(rt, &mut pass, Step::Cancel(session, id));
            }
            wait_for(rt, desk, &mut pass, session, id);
        }
    }
    pass
}

/// The sessions from the first are visited, so many of them, each from a thread and with a pass of its own.
pub fn visit_on_threads<R: Threads + Wait + Sync>(
    rt: &R,
    alloc: Global,
    desk: &MemoryDesk,
    mut pass: MemoryPass,
    errand: Errand,
    first: u8,
    count: u8,
) -> MemoryPass
    requires pass { IsPassOf desk.now.turn pass }
    requires sessions { first + count ≤ 17 }
    ensures { IsPassOf desk.now.turn result }
{
    let half = count / 2;
    if half == 0 {
        return match Session::new(first) {
            Some(session) => visit(rt, alloc, desk, pass, errand, session),
            None => pass,
        };
    }
    let rest = count - half;
    let next = first + half;
    let other = desk.seat(&mut pass);
    let (mut one, two) = join(
        rt,
        || -> MemoryPass
            requires { IsSync R.row × IsPassOf desk.now.turn pass × (first + half ≤ 17) }
            ensures { IsPassOf desk.entry.now.turn result }
        { visit_on_threads(rt, alloc, desk, pass, errand, first, half) },
        || -> MemoryPass
            requires { IsSync R.row × IsPassOf desk.now.turn other × (next + rest ≤ 17) }
            ensures { IsPassOf desk.entry.now.turn result }
        { visit_on_threads(rt, alloc, desk, other, errand, next, rest) },
    );
    desk.join(&mut one, two);
    one
}

/// How far a session came: whether it is open, its last id, whether it waits for that one's reply, and how many it has.
#[derive(Clone, Copy)]
struct Visited {
    is_open: bool,
    last: u32,
    is_waiting: bool,
    replies: u8,
}

impl Visited {
    // After an entry of the session, unless this is not what its visitor does next.
    fn after(self, step: &Step, outs: &[Out]) -> Option<Visited> {
        match (step, outs.first()) {
            (Step::Open(_), _) if !self.is_open => Some(Visited {
                is_open: true,
                ..self
            }),
            (Step::Submit(..), Some(Out::Request(_, id))) if !self.is_waiting && *id > self.last =>
                {
                    Some(Visited {
                        last: *id,
                        is_waiting: true,
                        ..self
                    })
                }
            (Step::Ask(_, Question::Reply(id)), Some(Out::Told(_, told)))
                if self.is_waiting && *id == self.last => {
                match told {
                    Told::Pending => Some(self),
                    Told::Reply(..) => Some(Visited {
                        is_waiting: false,
                        replies: self.replies.saturating_add(1),
                        ..self
                    }),
                    _ => None,
                }
            }
            _ => None,
        }
    }
}

// The session of a visitor's step.
fn session_of(step: &Step) -> Option<Session> {
    match step {
        Step::Open(session) => Some(*session),
        Step::Submit(session, _, _) => Some(*session),
        Step::Ask(session, _) => Some(*session),
        _ => None,
    }
}

/// Whether the entries of this session are those of one whole visit, in its order.
pub fn is_visit(entries: &[Entry<Step, StepOut>], session: Session) -> bool {
    let mut visited = Visited {
        is_open: false,
        last: 0,
        is_waiting: false,
        replies: 0,
    };
    for entry in entries {
        if session_of(&entry.op) == Some(session) {
            match visited.after(&entry.op, entry.outcome.outs.items()) {
                Some(after) => visited = after,
                None => return false,
            }
        }
    }
    visited.is_open && !visited.is_waiting && visited.replies == REQUESTS
}
