//! A lane: a list of lines that one pass does in order.
ghost use Rattle.std.specs.Prelude.{◌≡◌, ◌<◌, ◌++◌, IfErr, IsTrue, OnErr, OnOk, vec_capacity, vec_len};
ghost use Rattle.pad_live_core.specs.LaneLines.{first_id, id_at, id_drawn, id_named};
ghost use Rattle.pad_live_core.specs.Stops.{AreFormed, FullAt, IsFormedLine, LaneRan, LineBroken, LineDone, Rests, Stepped};
ghost use Rattle.pad_steps.specs.Formed.{is_well_formed};
ghost use Rattle.turnstile.specs.Turns.{IsPassOf, view};

use crate::asking::make;
use crate::awaiting::{await_entry, await_reply, is_told};
use crate::gate::Gate;
use crate::stop::Stop;
use disk_core::PowerDisk;
use pad_desk::{Desk, DeskPass, StepOut};
use pad_steps::{Out, Question, Step};
use pin_blocks::PinWork;
use script_lang::{LaneId, LaneStep};
use std::alloc::Global;
use std::sync::Wait;
use std::sync::atomic::AtomicU64;

/// How a lane ended: its pass, and why it ended early if it did.
#[derive(Drop)]
pub struct LaneEnd<W: PinWork + Drop, D: PowerDisk + Drop> {
    pub pass: DeskPass<W, D>,
    pub stop: Option<Stop>,
}

// The id of the lane's K-th Submit, or the greatest number.
fn id_at(ids: &[u32], k: u32) -> u32
    ensures { result ≡ id_at ids.now k }
{
    if k == 0 {
        return u32::MAX;
    }
    match ids.get((k - 1) as usize) {
        Some(id) => *id,
        None => u32::MAX,
    }
}

// The id that a Cancel names.
fn id_named(ids: &[u32], name: &LaneId) -> u32
    ensures { result ≡ id_named ids.now name.now }
{
    match name {
        LaneId::Zero => 0,
        LaneId::Nth(k) => id_at(ids, *k),
    }
}

// The id that a Submit was told, or the greatest number.
fn first_id(outs: &[Out]) -> u32
    ensures { result ≡ first_id outs.now }
{
    match outs.first() {
        Some(Out::Request(_, id)) => *id,
        _ => u32::MAX,
    }
}

// Keeps the id that a step drew.
fn keep_id(ids: &mut Vec<u32>, step: &Step, outcome: &StepOut)
    requires { vec_len ids.old < vec_capacity ids.old }
    ensures { ids.new.items ≡ ids.old.items ++ id_drawn step.now outcome.now }
{
    match step {
        Step::Submit(..) => ids.push_reserved(first_id(outcome.outs.items())),
        _ => {}
    }
}

// Takes the step, and keeps the id that it draws. Want of memory enters nothing.
fn do_step<R: Wait, W: PinWork + Drop, D: PowerDisk + Drop>(
    rt: &R,
    desk: &Desk<W, D>,
    pass: &mut DeskPass<W, D>,
    ids: &mut Vec<u32>,
    step: &Step,
) -> Result<(), Stop>
    requires pass { IsPassOf desk.now.turn pass.old }
    requires formed { IsTrue (is_well_formed step.now) }
    ensures pass { IsPassOf desk.now.turn pass.new }
    ensures done { OnOk result (Stepped W.rules ids.old.items step.now (view pass.old) ids.new.items (view pass.new)) }
    ensures rests { OnErr result (Rests W.rules (view pass.old) (view pass.new)) }
    ensures full { IfErr result (λ stop. FullAt stop (view pass.new)) }
{
    let Ok(copy) = step.copy(*ids.allocator()) else {
        return Err(Stop::NoMemory);
    };
    if ids.reserve(1).is_err() {
        return Err(Stop::NoMemory);
    }
    let given = make(rt, desk, pass, copy)?;
    keep_id(ids, step, &given.outcome);
    Ok(())
}

fn run_line<R: Wait, W: PinWork + Drop, D: PowerDisk + Drop>(
    rt: &R,
    desk: &Desk<W, D>,
    pass: &mut DeskPass<W, D>,
    ids: &mut Vec<u32>,
    last: &mut u64,
    line: &LaneStep,
    told: &AtomicU64,
) -> Result<(), Stop>
    requires pass { IsPassOf desk.now.turn pass.old }
    requires formed { IsFormedLine line.now }
    ensures pass { IsPassOf desk.now.turn pass.new }
    ensures done { OnOk result
        (LineDone W.rules ids.old.items last.old line.now (view pass.old) ids.new.items last.new (view pass.new)) }
    ensures broken { OnErr result
        (LineBroken W.rules ids.old.items last.old line.now (view pass.old) last.new (view pass.new)) }
    ensures full { IfErr result (λ stop. FullAt stop (view pass.new)) }
{
    match line {
        LaneStep::Plain(step) => do_step(rt, desk, pass, ids, step),
        LaneStep::Cancel(session, name) => {
            let id = id_named(ids.as_slice(), name);
            do_step(rt, desk, pass, ids, &Step::Cancel(*session, id))
        }
        LaneStep::AskReply(session, k) => {
            let id = id_at(ids.as_slice(), *k);
            do_step(
                rt,
                desk,
                pass,
                ids,
                &Step::Ask(*session, Question::Reply(id)),
            )
        }
        LaneStep::AwaitEntry => {
            if await_entry(rt, desk, pass, told) {
                Ok(())
            } else {
                Err(Stop::Told)
            }
        }
        LaneStep::AwaitReply(session, k) => {
            let id = id_at(ids.as_slice(), *k);
            await_reply(rt, desk, pass, *session, id, last, told)
        }
    }
}

/// Does the lines of the lane with this number in order, until the last, or until it has to end. It passes the gate before
/// each line, and once after the last.
pub fn run_lane<R: Wait, G: Gate, W: PinWork + Drop, D: PowerDisk + Drop>(
    rt: &R,
    alloc: Global,
    desk: &Desk<W, D>,
    mut pass: DeskPass<W, D>,
    lane: u8,
    gate: &G,
    lines: &[LaneStep],
    told: &AtomicU64,
) -> LaneEnd<W, D>
    requires pass { IsPassOf desk.now.turn pass }
    requires formed { AreFormed lines.now }
    ensures pass { IsPassOf desk.now.turn result.pass }
    ensures ran { LaneRan W.rules lines.now (view pass) result.stop (view result.pass) }
{
    let mut ids = Vec::new(alloc);
    let mut last = 0;
    let mut place = 1u32;
    for line in lines {
        gate.pass(lane, place);
        if is_told(told) {
            return LaneEnd {
                pass,
                stop: Some(Stop::Told),
            };
        }
        match run_line(rt, desk, &mut pass, &mut ids, &mut last, line, told) {
            Ok(()) => {}
            Err(stop) => {
                return LaneEnd {
                    pass,
                    stop: Some(stop),
                };
            }
        }
        place = place.saturating_add(1);
    }
    gate.pass(lane, place);
    LaneEnd { pass, stop: None }
}
