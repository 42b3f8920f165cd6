//! How a lane awaits an entry or a reply.
ghost use Rattle.std.specs.Prelude.{◌≡◌, [], IfErr, OnErr, OnOk};
ghost use Rattle.std.specs.Bool.{OnTrue};
ghost use Rattle.pad_live_core.specs.LaneEvents.{Moves};
ghost use Rattle.pad_live_core.specs.Stops.{Asked, FullAt, Polling, Replying, SawEntry, SawMore, Went};
ghost use Rattle.turnstile.specs.Turns.{IsPassOf, view};

use crate::asking::{shows_entry, shows_more};
use crate::stop::Stop;
use disk_core::PowerDisk;
use pad_desk::{Collected, Desk, DeskPass};
use pad_words::Session;
use pin_blocks::PinWork;
use std::sync::Wait;
use std::sync::atomic::{AtomicU64, Ordering};
use std::thread;
use turnstile::CallFault;

/// Whether someone had to stop.
pub(crate) fn is_told(told: &AtomicU64) -> bool {
    told.load(Ordering::SeqCst) != 0
}

// Waits until a glance shows more ended requests.
fn await_more<R: Wait, W: PinWork + Drop, D: PowerDisk + Drop>(
    rt: &R,
    desk: &Desk<W, D>,
    pass: &mut DeskPass<W, D>,
    last: &mut u64,
    told: &AtomicU64,
) -> Result<(), Stop>
    requires { IsPassOf desk.now.turn pass.old }
    ensures pass { IsPassOf desk.now.turn pass.new }
    ensures more { OnOk result (Moves W.rules 0 last.old (view pass.old) [] 1 last.new (view pass.new)) }
    ensures noted { OnOk result (SawMore last.old (view pass.new)) }
    ensures stopped { OnErr result (Moves W.rules 0 last.old (view pass.old) [] 0 last.new (view pass.new)) }
    ensures full { IfErr result (λ stop. FullAt stop (view pass.new)) }
{
    for _ in rt.forever() {
        if is_told(told) {
            return Err(Stop::Told);
        }
        if shows_more(desk, pass, last) {
            return Ok(());
        }
        thread::yield_now();
    }
    unreachable!()
}

// One glance, with which an await of a reply begins.
fn open_reply<W: PinWork + Drop, D: PowerDisk + Drop>(
    desk: &Desk<W, D>,
    pass: &mut DeskPass<W, D>,
    _session: Session,
    _id: u32,
    last: &mut u64,
)
    requires { IsPassOf desk.now.turn pass.old }
    ensures pass { IsPassOf desk.now.turn pass.new }
    ensures opened { Polling W.rules _session _id 1 last.old (view pass.old) last.new (view pass.new) }
{
    shows_more(desk, pass, last);
}

// One ask: whether the request is not pending any more.
fn ask_once<R: Wait, W: PinWork + Drop, D: PowerDisk + Drop>(
    rt: &R,
    desk: &Desk<W, D>,
    pass: &mut DeskPass<W, D>,
    session: Session,
    id: u32,
) -> Result<bool, Stop>
    requires { IsPassOf desk.now.turn pass.old }
    ensures pass { IsPassOf desk.now.turn pass.new }
    ensures asked { Asked W.rules session id result (view pass.old) (view pass.new) }
    ensures full { IfErr result (λ stop. FullAt stop (view pass.new)) }
{
    match desk.collect(rt, pass, session, id) {
        Ok(collected) => match collected {
            Collected::Pending => Ok(false),
            Collected::Ended(_) => Ok(true),
            Collected::Refused(_) => Ok(true),
        },
        Err(CallFault::NoMemory(_)) => Err(Stop::NoMemory),
        Err(CallFault::HistoryFull(_, _)) => Err(Stop::Full),
    }
}

/// Asks until the request is not pending any more, and asks again only once a glance shows more ended requests than the
/// glance before the last ask.
pub(crate) fn await_reply<R: Wait, W: PinWork + Drop, D: PowerDisk + Drop>(
    rt: &R,
    desk: &Desk<W, D>,
    pass: &mut DeskPass<W, D>,
    session: Session,
    id: u32,
    last: &mut u64,
    told: &AtomicU64,
) -> Result<(), Stop>
    requires { IsPassOf desk.now.turn pass.old }
    ensures pass { IsPassOf desk.now.turn pass.new }
    ensures replied { OnOk result (Replying W.rules session id last.old (view pass.old) last.new (view pass.new)) }
    ensures broken { OnErr result (Polling W.rules session id 0 last.old (view pass.old) last.new (view pass.new)) }
    ensures full { IfErr result (λ stop. FullAt stop (view pass.new)) }
{
    open_reply(desk, pass, session, id, last);
    for _ in rt.forever() {
        if ask_once(rt, desk, pass, session, id)? {
            return Ok(());
        }
        await_more(rt, desk, pass, last, told)?;
    }
    unreachable!()
}

/// Waits until a glance shows that an entry runs, or the lane has to end.
pub(crate) fn await_entry<R: Wait, W: PinWork + Drop, D: PowerDisk + Drop>(
    rt: &R,
    desk: &Desk<W, D>,
    pass: &mut DeskPass<W, D>,
    told: &AtomicU64,
) -> bool
    requires { IsPassOf desk.now.turn pass.old }
    ensures pass { IsPassOf desk.now.turn pass.new }
    ensures went { Went W.rules result (view pass.old) (view pass.new) }
    ensures noted { OnTrue result (SawEntry (view pass.new)) }
{
    for _ in rt.forever() {
        if is_told(told) {
            return false;
        }
        if shows_entry(desk, pass) {
            return true;
        }
        thread::yield_now();
    }
    unreachable!()
}
