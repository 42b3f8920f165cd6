//! Lanes and the worker in a scope.
ghost use Rattle.std.specs.Prelude.{◌≡◌, ◌≤◌, length, map, vec_capacity, vec_len};
ghost use Rattle.pad_live_core.specs.LaneJobs.{AllEnded, AllFormed, AreSeated, WorkerRan};
ghost use Rattle.pad_live_core.specs.Stops.{FinishEnds};
ghost use Rattle.pad_live_core.specs.Workers.{WorksOn};
ghost use Rattle.turnstile.specs.Turns.{IsPassOf, view};

use crate::gate::Gate;
use crate::jobs::Pending;
use crate::joins::join_lanes;
use crate::lane::LaneEnd;
use crate::starts::start_lanes;
use crate::stop::Stop;
use crate::worker::{WorkerEnd, run_worker};
use disk_core::PowerDisk;
use pad_desk::{Desk, DeskPass};
use pin_blocks::PinWork;
use script_lang::LaneStep;
use std::alloc::Global;
use std::snapshot::Snapshot;
use std::sync::Wait;
use std::sync::atomic::{AtomicU64, Ordering};
use std::thread;
use std::thread::{Promise, Scope, Threads};

/// The worker works on from what it began with.
#[derive(Drop)]
pub struct SameWorker<W: PinWork + Drop, D: PowerDisk + Drop> {
    desk: Snapshot<Desk<W, D>>,
    pass: Snapshot<DeskPass<W, D>>,
}

impl<W: PinWork + Drop, D: PowerDisk + Drop> Promise<WorkerEnd<W, D>> for SameWorker<W, D> {
    ghost use Rattle.pad_live_core.specs.LaneJobs.{WorkerRan};
    ghost use Rattle.turnstile.specs.Turns.{view};

    ghost kept_by = { λ promise end. WorkerRan W.rules promise.desk.value.turn (view promise.pass.value) end };
}

// Works, and tells the lanes where it had to stop.
fn do_worker<R: Wait, W: PinWork + Drop, D: PowerDisk + Drop>(
    rt: &R,
    desk: &Desk<W, D>,
    pass: DeskPass<W, D>,
    lanes: u64,
    ended: &AtomicU64,
    told: &AtomicU64,
) -> WorkerEnd<W, D>
    requires { IsPassOf desk.now.turn pass }
    ensures { WorkerRan W.rules desk.now.turn (view pass) result }
{
    let end = run_worker(rt, desk, pass, lanes, ended, told);
    if end.stop.is_some() {
        told.store(1, Ordering::SeqCst);
    }
    end
}

/// Works on until no work is due, unless a lane or the worker had to stop.
pub(crate) fn finish_work<R: Wait, W: PinWork + Drop, D: PowerDisk + Drop>(
    rt: &R,
    desk: &Desk<W, D>,
    pass: DeskPass<W, D>,
    early: Option<Stop>,
) -> WorkerEnd<W, D>
    requires { IsPassOf desk.now.turn pass }
    ensures pass { IsPassOf desk.now.turn result.pass }
    ensures works { WorksOn W.rules (view pass) (view result.pass) }
    ensures ends { FinishEnds early result.stop (view result.pass) }
{
    match early {
        Some(stop) => WorkerEnd {
            pass,
            stop: Some(stop),
        },
        None => {
            let none = AtomicU64::new(0);
            run_worker(rt, desk, pass, 0, &none, &none)
        }
    }
}

// Starts the worker and the lanes, and joins them. What gets no thread is done here, once the others were started.
fn in_scope<
    's,
    E,
    R: Threads + Wait + Sync,
    G: Gate + Sync,
    W: PinWork + Drop + Send,
    D: PowerDisk + Drop + Send,
>(
    rt: &'s R,
    scope: &'s Scope<'s, E>,
    alloc: Global,
    desk: &'s Desk<W, D>,
    lanes: &'s [Vec<LaneStep>],
    passes: Vec<DeskPass<W, D>>,
    worker: DeskPass<W, D>,
    gate: &'s G,
    told: &'s AtomicU64,
    ended: &'s AtomicU64,
    mut pendings: Vec<Pending<W, D>>,
    mut ends: Vec<LaneEnd<W, D>>,
) -> (Vec<LaneEnd<W, D>>, WorkerEnd<W, D>)
    requires seats { AreSeated desk.now.turn 1 passes.items }
    requires lanes { vec_len passes ≡ length lanes.now }
    requires few { length lanes.now ≤ 16 }
    requires formed { AllFormed (map (λ v. v.items) lanes.now) }
    requires worker { IsPassOf desk.now.turn worker }
    requires pendings { (vec_len pendings ≡ 0) × (vec_len passes ≤ vec_capacity pendings) }
    requires ends { (vec_len ends ≡ 0) × (vec_len passes ≤ vec_capacity ends) }
    ensures ended { AllEnded W.rules desk.now.turn 1 (map (λ v. v.items) lanes.now) result.0.items }
    ensures worker { WorkerRan W.rules desk.now.turn (view worker) result.1 }
{
    let count = lanes.len() as u64;
    let promise = SameWorker {
        desk: Snapshot::of(desk),
        pass: Snapshot::of(&worker),
    };
    let job = move || -> WorkerEnd<W, D>
        requires { IsPassOf desk.now.turn worker }
        ensures { WorkerRan W.rules desk.entry.now.turn (view worker) result }
    { do_worker(rt, desk, worker, count, ended, told) };
    let started = scope.spawn_with(promise, job);
    start_lanes(
        rt,
        scope,
        alloc,
        desk,
        lanes,
        passes,
        gate,
        told,
        ended,
        &mut pendings,
    );
    match started {
        Ok(child) => {
            join_lanes(rt, desk, lanes, pendings, &mut ends);
            let worker = child.join(rt);
            return (ends, worker);
        }
        Err(refused) => {
            let worker = (refused.value)();
            join_lanes(rt, desk, lanes, pendings, &mut ends);
            (ends, worker)
        }
    }
}

/// Runs each lane and the worker on a thread of its own, and waits until all have ended.
pub(crate) fn run_all<
    R: Threads + Wait + Sync,
    G: Gate + Sync,
    W: PinWork + Drop + Send,
    D: PowerDisk + Drop + Send,
>(
    rt: &R,
    alloc: Global,
    desk: &Desk<W, D>,
    lanes: &[Vec<LaneStep>],
    passes: Vec<DeskPass<W, D>>,
    worker: DeskPass<W, D>,
    gate: &G,
    pendings: Vec<Pending<W, D>>,
    ends: Vec<LaneEnd<W, D>>,
) -> (Vec<LaneEnd<W, D>>, WorkerEnd<W, D>)
    requires seats { AreSeated desk.now.turn 1 passes.items }
    requires lanes { vec_len passes ≡ length lanes.now }
    requires few { length lanes.now ≤ 16 }
    requires formed { AllFormed (map (λ v. v.items) lanes.now) }
    requires worker { IsPassOf desk.now.turn worker }
    requires pendings { (vec_len pendings ≡ 0) × (vec_len passes ≤ vec_capacity pendings) }
    requires ends { (vec_len ends ≡ 0) × (vec_len passes ≤ vec_capacity ends) }
    ensures ended { AllEnded W.rules desk.now.turn 1 (map (λ v. v.items) lanes.now) result.0.items }
    ensures worker { WorkerRan W.rules desk.now.turn (view worker) result.1 }
{
    let stopped = AtomicU64::new(0);
    let over = AtomicU64::new(0);
    let told = &stopped;
    let ended = &over;
    thread::scope(
        thread::scope_env(),
        rt,
        |scope| -> (Vec<LaneEnd<W, D>>, WorkerEnd<W, D>)
            requires seats { AreSeated desk.now.turn 1 passes.items }
            requires lanes { vec_len passes ≡ length lanes.now }
            requires few { length lanes.now ≤ 16 }
            requires formed { AllFormed (map (λ v. v.items) lanes.now) }
            requires worker { IsPassOf desk.now.turn worker }
            requires pendings { (vec_len pendings ≡ 0) × (vec_len passes ≤ vec_capacity pendings) }
            requires ends { (vec_len ends ≡ 0) × (vec_len passes ≤ vec_capacity ends) }
            ensures ended { AllEnded W.rules desk.entry.now.turn 1 (map (λ v. v.items) lanes.entry.now) result.0.items }
            ensures worker { WorkerRan W.rules desk.entry.now.turn (view worker) result.1 }
        {
            in_scope(
                rt, scope, alloc, desk, lanes, passes, worker, gate, told, ended, pendings, ends,
            )
        },
    )
}
