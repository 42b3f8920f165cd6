//! The lanes of a script and the worker over one pad, from the first pass to the whole history.
ghost use Rattle.std.specs.Prelude.{◌≡◌, ◌≤◌, IfOk, length, map, vec_capacity, vec_len};
ghost use Rattle.flat_machine.specs.State.{opening};
ghost use Rattle.pad_desk.specs.Machines.{HistoryOnDisk, IsFreshDisk};
ghost use Rattle.pad_live_core.specs.LaneJobs.{AllFormed};
ghost use Rattle.pad_live_core.specs.LiveHistories.{LiveHistory};
ghost use Rattle.pad_live_core.specs.LiveRuns.{IsRunOf};
ghost use Rattle.pad_machine.specs.Stands.{StandsFor, set_by};

use crate::gate::Gate;
use crate::joins::{absorb, seat_lanes, worse};
use crate::scopes::{finish_work, run_all};
use crate::stop::Stop;
use disk_core::PowerDisk;
use pad_desk::{Desk, History};
use pad_machine::Pad;
use pad_words::NoMemory;
use pin_blocks::PinWork;
use script_lang::LaneStep;
use std::alloc::Global;
use std::sync::Wait;
use std::thread::Threads;

/// How the lanes ended: why the run stopped early if it did, the whole history, and the disk.
#[derive(Drop)]
pub struct LanesEnd<D: PowerDisk + Drop> {
    pub stop: Option<Stop>,
    pub history: History,
    pub disk: D,
}

// An empty list with room for so many.
fn list_for<T>(alloc: Global, count: usize) -> Result<Vec<T>, NoMemory>
    ensures empty { IfOk result (λ list. vec_len list ≡ 0) }
    ensures room { IfOk result (λ list. count ≤ vec_capacity list) }
{
    match Vec::with_capacity(alloc, count) {
        Ok(list) => Ok(list),
        Err(_) => Err(NoMemory),
    }
}

/// Runs each lane and the worker on a thread of its own over this pad, which is off and took no step, and this disk, which
/// is fresh. All memory for the threads is taken first; where it is wanting no lane runs, and the disk is dropped.
pub(crate) fn run_lanes<
    R: Threads + Wait + Sync,
    G: Gate + Sync,
    W: PinWork + Drop + Send,
    D: PowerDisk + Drop + Send,
>(
    rt: &R,
    alloc: Global,
    pad: Pad<W>,
    disk: D,
    lanes: &[Vec<LaneStep>],
    gate: &G,
) -> Result<LanesEnd<D>, NoMemory>
    requires pad { StandsFor pad pad.kept.seed opening }
    requires disk { IsFreshDisk (D.state disk) }
    requires few { length lanes.now ≤ 16 }
    requires formed { AllFormed (map (λ v. v.items) lanes.now) }
    ensures history { IfOk result (λ end. LiveHistory W.rules (map (λ v. v.items) lanes.now) end.stop end.history) }
    ensures seed { IfOk result (λ end. IsRunOf W.rules pad.kept.seed end.history) }
    ensures disk { IfOk result (λ end. HistoryOnDisk (set_by W.rules pad.kept.seed) end.history (D.state end.disk)) }
{
    let mut passes = list_for(alloc, lanes.len())?;
    let pendings = list_for(alloc, lanes.len())?;
    let ends = list_for(alloc, lanes.len())?;
    let (desk, mut first) = Desk::new(alloc, pad, disk)?;
    let worker = desk.seat(&mut first);
    seat_lanes(&desk, &mut first, &mut passes, lanes.len());
    let (ends, worker_end) = run_all(
        rt, alloc, &desk, lanes, passes, worker, gate, pendings, ends,
    );
    let mut pass = worker_end.pass;
    let worker_stop = worker_end.stop;
    let lanes_stop = absorb(&desk, lanes, &mut pass, ends);
    let last = finish_work(rt, &desk, pass, worse(lanes_stop, worker_stop));
    let stop = last.stop;
    desk.join(&mut first, last.pass);
    let (_, disk, history) = desk.close(rt, first);
    Ok(LanesEnd {
        stop,
        history,
        disk,
    })
}
