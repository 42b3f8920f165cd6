//! Lanes are started on threads.
ghost use Rattle.std.specs.Prelude.{◌≡◌, ◌≤◌, ◌+◌, IfNone, IfSome, length, map, take, vec_capacity, vec_len};
ghost use Rattle.pad_live_core.specs.LaneJobs.{AllFormed, AreSeated, LastSeat};
ghost use Rattle.pad_live_core.specs.PendingLanes.{AllPend};
ghost use Rattle.pad_live_core.specs.Stops.{AreFormed, LaneRan};
ghost use Rattle.turnstile.specs.Turns.{IsPassOf, view};

use crate::gate::Gate;
use crate::jobs::{Pending, SameLane, do_lane, start_of};
use crate::lane::LaneEnd;
use disk_core::PowerDisk;
use pad_desk::{Desk, DeskPass};
use pin_blocks::PinWork;
use script_lang::LaneStep;
use std::alloc::Global;
use std::sync::Wait;
use std::sync::atomic::AtomicU64;
use std::thread::{Scope, Threads};

// The last of the passes.
fn pop_pass<W: PinWork + Drop, D: PowerDisk + Drop>(
    desk: &Desk<W, D>,
    passes: &mut Vec<DeskPass<W, D>>,
) -> Option<DeskPass<W, D>>
    requires { AreSeated desk.now.turn 1 passes.old.items }
    ensures none { IfNone result (vec_len passes.old ≡ 0) }
    ensures some { IfSome result (LastSeat desk.now.turn passes.new.items) }
    ensures len { IfSome result (λ pass. vec_len passes.old ≡ vec_len passes.new + 1) }
{
    passes.pop()
}

/// Starts a lane for each pass, the last first. A lane whose thread cannot be made is done here, once all others were
/// started.
pub(crate) fn start_lanes<
    's,
    E,
    R: Threads + Wait + Sync,
    G: Gate + Sync,
    W: PinWork + Drop + Send,
    D: PowerDisk + Drop + Send,
>(
    rt: &'s R,
    scope: &'s Scope<'s, E>,
    alloc: Global,
    desk: &'s Desk<W, D>,
    lanes: &'s [Vec<LaneStep>],
    mut passes: Vec<DeskPass<W, D>>,
    gate: &'s G,
    told: &'s AtomicU64,
    ended: &'s AtomicU64,
    pendings: &mut Vec<Pending<W, D>>,
)
    requires seats { AreSeated desk.now.turn 1 passes.items }
    requires lanes { vec_len passes ≤ length lanes.now }
    requires few { length lanes.now ≤ 16 }
    requires formed { AllFormed (map (λ v. v.items) lanes.now) }
    requires empty { vec_len pendings.old ≡ 0 }
    requires room { vec_len passes ≤ vec_capacity pendings.old }
    ensures started { AllPend W.rules desk.now.turn 1
        (map (λ v. v.items) (take (vec_len passes) lanes.now)) pendings.new.items }
    ensures len { vec_len pendings.new ≡ vec_len passes }
    ensures room { vec_capacity pendings.new ≡ vec_capacity pendings.old }
{
    let Some(pass) = pop_pass(desk, &mut passes) else {
        return;
    };
    let lines = &lanes[passes.len()];
    let number = passes.len() as u8 + 1;
    let promise = SameLane {
        start: start_of(desk, lines, &pass),
    };
    let lane = move || -> LaneEnd<W, D>
        requires pass { IsPassOf desk.now.turn pass }
        requires formed { AreFormed lines.now.items }
        ensures pass { IsPassOf desk.entry.now.turn result.pass }
        ensures ran { LaneRan W.rules lines.entry.now.items (view pass) result.stop (view result.pass) }
    { do_lane(rt, alloc, desk, pass, number, gate, lines, told, ended) };
    let started = scope.spawn_with(promise, lane);
    start_lanes(
        rt, scope, alloc, desk, lanes, passes, gate, told, ended, pendings,
    );
    match started {
        Ok(child) => {
            pendings.push_reserved(Pending::Running(child));
            return;
        }
        Err(refused) => {
            let end = (refused.value)();
            pendings.push_reserved(Pending::Done(end));
        }
    }
}
