//! The worker: it does the work that is due.
ghost use Rattle.std.specs.Prelude.{◌≡◌};
ghost use Rattle.pad_live_core.specs.Stops.{WorkEnds, WorkTold};
ghost use Rattle.pad_live_core.specs.Workers.{WorksOn};
ghost use Rattle.turnstile.specs.Turns.{IsPassOf, view};

use crate::awaiting::is_told;
use crate::stop::Stop;
use disk_core::PowerDisk;
use pad_desk::{Desk, DeskPass, Worked};
use pin_blocks::PinWork;
use std::sync::Wait;
use std::sync::atomic::{AtomicU64, Ordering};
use std::thread;
use turnstile::CallFault;

/// How the worker ended: its pass, and why it ended early if it did.
#[derive(Drop)]
pub struct WorkerEnd<W: PinWork + Drop, D: PowerDisk + Drop> {
    pub pass: DeskPass<W, D>,
    pub stop: Option<Stop>,
}

// One glance, and then the step that its status says is due, if any: whether there was one.
fn work_once<R: Wait, W: PinWork + Drop, D: PowerDisk + Drop>(
    rt: &R,
    desk: &Desk<W, D>,
    pass: &mut DeskPass<W, D>,
) -> Result<bool, Stop>
    requires { IsPassOf desk.now.turn pass.old }
    ensures pass { IsPassOf desk.now.turn pass.new }
    ensures works { WorksOn W.rules (view pass.old) (view pass.new) }
    ensures told { WorkTold result (view pass.new) }
{
    match desk.work(rt, pass) {
        Ok(worked) => match worked {
            Worked::Did(_) => Ok(true),
            Worked::Nothing(_) => Ok(false),
        },
        Err(CallFault::NoMemory(_)) => Err(Stop::NoMemory),
        Err(CallFault::HistoryFull(_, _)) => Err(Stop::Full),
    }
}

/// Works until so many lanes have ended and a glance says that no work is due, or until it has to end.
pub fn run_worker<R: Wait, W: PinWork + Drop, D: PowerDisk + Drop>(
    rt: &R,
    desk: &Desk<W, D>,
    mut pass: DeskPass<W, D>,
    lanes: u64,
    ended: &AtomicU64,
    told: &AtomicU64,
) -> WorkerEnd<W, D>
    requires { IsPassOf desk.now.turn pass }
    ensures pass { IsPassOf desk.now.turn result.pass }
    ensures works { WorksOn W.rules (view pass) (view result.pass) }
    ensures ends { WorkEnds result.stop (view result.pass) }
{
    for _ in rt.forever() {
        if is_told(told) {
            return WorkerEnd {
                pass,
                stop: Some(Stop::Told),
            };
        }
        let all_ended = lanes <= ended.load(Ordering::SeqCst);
        match work_once(rt, desk, &mut pass) {
            Ok(true) => {}
            Ok(false) => {
                if all_ended {
                    return WorkerEnd { pass, stop: None };
                }
                thread::yield_now();
            }
            Err(stop) => {
                return WorkerEnd {
                    pass,
                    stop: Some(stop),
                };
            }
        }
    }
    unreachable!()
}
