//! Lanes as jobs: what was begun, and what came of it.
ghost use Rattle.std.specs.Prelude.{◌≡◌};
ghost use Rattle.pad_live_core.specs.Stops.{AreFormed, LaneRan};
ghost use Rattle.turnstile.specs.Turns.{IsPassOf, view};

use crate::gate::Gate;
use crate::lane::{LaneEnd, run_lane};
use disk_core::PowerDisk;
use pad_desk::{Desk, DeskPass};
use pin_blocks::PinWork;
use script_lang::LaneStep;
use std::alloc::Global;
use std::snapshot::Snapshot;
use std::sync::Wait;
use std::sync::atomic::{AtomicU64, Ordering};
use std::thread::{Promise, PromisedHandle};

/// What a lane began with. It has no bytes.
#[derive(Drop)]
pub struct LaneStart<W: PinWork + Drop, D: PowerDisk + Drop> {
    pub desk: Snapshot<Desk<W, D>>,
    pub lines: Snapshot<Vec<LaneStep>>,
    pub pass: Snapshot<DeskPass<W, D>>,
}

/// The lane does what it began with.
#[derive(Drop)]
pub struct SameLane<W: PinWork + Drop, D: PowerDisk + Drop> {
    pub start: LaneStart<W, D>,
}

impl<W: PinWork + Drop, D: PowerDisk + Drop> Promise<LaneEnd<W, D>> for SameLane<W, D> {
    ghost use Rattle.pad_live_core.specs.LaneJobs.{EndsFrom};

    ghost kept_by = { λ promise end. EndsFrom W.rules promise.start end };
}

/// What a lane begins with.
pub(crate) fn start_of<W: PinWork + Drop, D: PowerDisk + Drop>(
    desk: &Desk<W, D>,
    lines: &Vec<LaneStep>,
    pass: &DeskPass<W, D>,
) -> LaneStart<W, D>
    ensures desk { result.desk.value ≡ desk.now }
    ensures lines { result.lines.value ≡ lines.now }
    ensures pass { result.pass.value ≡ pass.now }
{
    LaneStart {
        desk: Snapshot::of(desk),
        lines: Snapshot::of(lines),
        pass: Snapshot::of(pass),
    }
}

/// Runs a lane, tells the others where it had to stop, and counts it among those that ended.
pub(crate) fn do_lane<R: Wait, G: Gate, W: PinWork + Drop, D: PowerDisk + Drop>(
    rt: &R,
    alloc: Global,
    desk: &Desk<W, D>,
    pass: DeskPass<W, D>,
    lane: u8,
    gate: &G,
    lines: &Vec<LaneStep>,
    told: &AtomicU64,
    ended: &AtomicU64,
) -> LaneEnd<W, D>
    requires pass { IsPassOf desk.now.turn pass }
    requires formed { AreFormed lines.now.items }
    ensures pass { IsPassOf desk.now.turn result.pass }
    ensures ran { LaneRan W.rules lines.now.items (view pass) result.stop (view result.pass) }
{
    let end = run_lane(rt, alloc, desk, pass, lane, gate, lines.as_slice(), told);
    if end.stop.is_some() {
        told.store(1, Ordering::SeqCst);
    }
    ended.fetch_add(1, Ordering::SeqCst);
    end
}

/// A lane that was started: it runs, or it was done by its starter.
#[derive(Drop)]
pub enum Pending<W: PinWork + Drop, D: PowerDisk + Drop> {
    Running(PromisedHandle<LaneEnd<W, D>, SameLane<W, D>>),
    Done(LaneEnd<W, D>),
}
