//! Lanes are seated, joined, and their passes taken in.
ghost use Rattle.std.specs.Prelude.{◌≡◌, ◌≤◌, ◌+◌, List, length, map, vec_capacity, vec_len, ℕ};
ghost use Rattle.pad_live_core.specs.LaneJobs.{AllEnded, AreSeated, EndsAs};
ghost use Rattle.pad_live_core.specs.PendingLanes.{Absorbed, AllPend, PendsAs};
ghost use Rattle.pad_live_core.specs.Stops.{worse};
ghost use Rattle.script_lang.specs.declared.lane_kinds.LaneStep.{LaneStep};
ghost use Rattle.turnstile.specs.Rules.{first_view};
ghost use Rattle.turnstile.specs.Turns.{IsPassOf, view};

use crate::jobs::Pending;
use crate::lane::LaneEnd;
use crate::stop::Stop;
use disk_core::PowerDisk;
use pad_desk::{Desk, DeskPass};
use pin_blocks::PinWork;
use script_lang::LaneStep;
use std::thread::Threads;

// How the lane ended.
fn ended<R: Threads, W: PinWork + Drop, D: PowerDisk + Drop>(
    rt: &R,
    desk: &Desk<W, D>,
    pending: Pending<W, D>,
) -> LaneEnd<W, D>
    ensures { (k : ℕ) (lines : List LaneStep) → PendsAs W.rules desk.now.turn k lines pending → EndsAs W.rules desk.now.turn k lines result }
{
    match pending {
        Pending::Running(child) => child.join(rt),
        Pending::Done(end) => end,
    }
}

/// Joins the lanes that run.
pub(crate) fn join_lanes<R: Threads, W: PinWork + Drop, D: PowerDisk + Drop>(
    rt: &R,
    desk: &Desk<W, D>,
    lanes: &[Vec<LaneStep>],
    pendings: Vec<Pending<W, D>>,
    ends: &mut Vec<LaneEnd<W, D>>,
)
    requires pendings { AllPend W.rules desk.now.turn 1 (map (λ v. v.items) lanes.now) pendings.items }
    requires empty { vec_len ends.old ≡ 0 }
    requires room { vec_len pendings ≤ vec_capacity ends.old }
    ensures { AllEnded W.rules desk.now.turn 1 (map (λ v. v.items) lanes.now) ends.new.items }
{
    for pending in pendings {
        let end = ended(rt, desk, pending);
        ends.push_reserved(end);
    }
}

/// Seats a pass for each lane.
pub fn seat_lanes<W: PinWork + Drop, D: PowerDisk + Drop>(
    desk: &Desk<W, D>,
    first: &mut DeskPass<W, D>,
    passes: &mut Vec<DeskPass<W, D>>,
    count: usize,
)
    requires pass { IsPassOf desk.now.turn first.old }
    requires first { view first.old ≡ record (first_view (view first.old).origin) { seated = 1 } }
    requires empty { vec_len passes.old ≡ 0 }
    requires room { count ≤ vec_capacity passes.old }
    ensures pass { IsPassOf desk.now.turn first.new }
    ensures first { view first.new ≡ record (first_view (view first.old).origin) { seated = 1 + count } }
    ensures seats { AreSeated desk.now.turn 1 passes.new.items }
    ensures len { vec_len passes.new ≡ count }
{
    for i in 0..count {
        passes.push_reserved(desk.seat(first));
    }
}

/// The reason that counts more: a full history, and then any.
pub fn worse(one: Option<Stop>, other: Option<Stop>) -> Option<Stop>
    ensures { result ≡ worse one other }
{
    match other {
        Some(Stop::Full) => Some(Stop::Full),
        None => one,
        _ => match one {
            Some(Stop::Full) => Some(Stop::Full),
            _ => Some(Stop::NoMemory),
        },
    }
}

/// Joins the passes of the lanes into the worker's.
pub fn absorb<W: PinWork + Drop, D: PowerDisk + Drop>(
    desk: &Desk<W, D>,
    lanes: &[Vec<LaneStep>],
    worker: &mut DeskPass<W, D>,
    ends: Vec<LaneEnd<W, D>>,
) -> Option<Stop>
    requires pass { IsPassOf desk.now.turn worker.old }
    requires ends { AllEnded W.rules desk.now.turn 1 (map (λ v. v.items) lanes.now) ends.items }
    ensures pass { IsPassOf desk.now.turn worker.new }
    ensures absorbed { Absorbed W.rules (map (λ v. v.items) lanes.now) (view worker.old) result (view worker.new) }
{
    let mut stop = None;
    for end in ends {
        let LaneEnd {
            pass,
            stop: lane_stop,
        } = end;
        stop = worse(stop, lane_stop);
        desk.join(worker, pass);
    }
    stop
}
