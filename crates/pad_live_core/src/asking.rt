//! One call of a lane, and one glance.
ghost use Rattle.std.specs.Prelude.{◌≡◌, [], IfErr, IfOk, IsTrue, OnErr};
ghost use Rattle.std.specs.Bool.{OnFalse, OnTrue};
ghost use Rattle.pad_desk.specs.Histories.{Legal, status_after};
ghost use Rattle.pad_live_core.specs.LaneEvents.{Moves};
ghost use Rattle.pad_desk.specs.Statuses.{ended_at, entry_runs_at};
ghost use Rattle.pad_live_core.specs.Stops.{FullAt, ShowsEntry, ShowsMore, Went};
ghost use Rattle.pad_steps.specs.Formed.{is_well_formed};
ghost use Rattle.turnstile.specs.Turns.{Enters, IsPassOf, Sees, view};

use crate::laws::ended_requests_stay;
use crate::stop::Stop;
use disk_core::PowerDisk;
use pad_desk::{Desk, DeskPass, StepOut};
use pad_steps::Step;
use pin_blocks::PinWork;
use std::sync::Wait;
use turnstile::{CallFault, Given};

/// Takes a step. Where it is refused the step is dropped.
pub(crate) fn make<R: Wait, W: PinWork + Drop, D: PowerDisk + Drop>(
    rt: &R,
    desk: &Desk<W, D>,
    pass: &mut DeskPass<W, D>,
    step: Step,
) -> Result<Given<StepOut>, Stop>
    requires pass { IsPassOf desk.now.turn pass.old }
    requires formed { IsTrue (is_well_formed step) }
    ensures pass { IsPassOf desk.now.turn pass.new }
    ensures made { IfOk result (λ given.
        Enters (Legal W.rules) (status_after W.rules) (view pass.old) given.place step given.outcome (view pass.new)) }
    ensures seen { OnErr result (Sees (Legal W.rules) (status_after W.rules) (view pass.old) (view pass.new)) }
    ensures full { IfErr result (λ stop. FullAt stop (view pass.new)) }
{
    match desk.call(rt, pass, step) {
        Ok(given) => Ok(given),
        Err(CallFault::NoMemory(_)) => Err(Stop::NoMemory),
        Err(CallFault::HistoryFull(_, _)) => Err(Stop::Full),
    }
}

// How many requests ended at a status.
fn ended_at(status: u64) -> u64
    ensures { result ≡ ended_at status }
{
    status / 2048
}

// Whether an entry runs at a status.
fn entry_runs_at(status: u64) -> bool
    ensures { result ≡ entry_runs_at status }
{
    status / 4 % 2 == 1
}

/// Whether a glance shows more ended requests than the glance before the last ask.
pub(crate) fn shows_more<W: PinWork + Drop, D: PowerDisk + Drop>(
    desk: &Desk<W, D>,
    pass: &mut DeskPass<W, D>,
    last: &mut u64,
) -> bool
    requires { IsPassOf desk.now.turn pass.old }
    ensures pass { IsPassOf desk.now.turn pass.new }
    ensures more { OnTrue result (Moves W.rules 0 last.old (view pass.old) [] 1 last.new (view pass.new)) }
    ensures same { OnFalse result (Moves W.rules 0 last.old (view pass.old) [] 0 last.new (view pass.new)) }
    ensures kept { OnFalse result (last.new ≡ last.old) }
    ensures noted { ShowsMore last.old result (view pass.old) (view pass.new) }
{
    ended_requests_stay();
    let glance = desk.glance(pass);
    let ended = ended_at(glance.status);
    if *last < ended {
        *last = ended;
        return true;
    }
    false
}

/// Whether a glance shows that an entry runs.
pub(crate) fn shows_entry<W: PinWork + Drop, D: PowerDisk + Drop>(
    desk: &Desk<W, D>,
    pass: &mut DeskPass<W, D>,
) -> bool
    requires { IsPassOf desk.now.turn pass.old }
    ensures pass { IsPassOf desk.now.turn pass.new }
    ensures went { Went W.rules result (view pass.old) (view pass.new) }
    ensures noted { ShowsEntry result (view pass.old) (view pass.new) }
{
    let glance = desk.glance(pass);
    entry_runs_at(glance.status)
}
