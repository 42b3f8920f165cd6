//! Callers of one desk.
ghost use Rattle.std.specs.Prelude.{◌≡◌, ◌≤◌, IfOk};
ghost use Rattle.turnstile.specs.Turns.{IsPassOf};

use crate::{Collected, Desk, DeskPass, StepOut, Submitted, Worked};
use disk_core::{ArmDisk, MemDisk, Strike};
use key_source::{Key, Mask};
use local_check::StandardWork;
use pad_machine::Pad;
use pad_steps::{Answer, Command, Completion, EntryRules, Reply, Step};
use pad_words::{NoMemory, Session};
use std::alloc::Global;
use std::sync::Wait;
use std::test::Fail;
use turnstile::Given;

/// A desk over a disk in memory.
pub type MemoryDesk = Desk<StandardWork, MemDisk>;

/// A pass at it.
pub type MemoryPass = DeskPass<StandardWork, MemDisk>;

/// The bit of ENTER.
const ENTER: u32 = 1 << 16;

/// A PIN of four to six digits, ended by ENTER.
const PIN: EntryRules = EntryRules {
    min: 4,
    max: 6,
    auto_end: false,
    active: Mask {
        keys: 0x3FF | ENTER,
        fdks: 0,
    },
    terminate: Mask {
        keys: ENTER,
        fdks: 0,
    },
};

/// A desk over an empty disk.
pub fn fresh_desk(alloc: Global) -> Result<(MemoryDesk, MemoryPass), NoMemory>
    ensures { IfOk result (λ made. IsPassOf made.0.turn made.1) }
{
    let pad = Pad::new(alloc, StandardWork, [0; 32])?;
    Desk::new(alloc, pad, MemDisk::new())
}

/// A desk over an empty disk, of which this call is struck, counted from 1.
pub fn struck_desk(
    alloc: Global,
    call: u32,
    strike: Strike,
) -> Result<(MemoryDesk, MemoryPass), NoMemory>
    requires { 1 ≤ call }
    ensures { IfOk result (λ made. IsPassOf made.0.turn made.1) }
{
    let pad = Pad::new(alloc, StandardWork, [0; 32])?;
    let mut disk = MemDisk::new();
    disk.arm(call, strike);
    Desk::new(alloc, pad, disk)
}

/// Takes a step, if it is well formed.
pub fn take<R: Wait>(
    rt: &R,
    desk: &MemoryDesk,
    pass: &mut MemoryPass,
    step: Step,
) -> Result<Given<StepOut>, Fail>
    requires { IsPassOf desk.now.turn pass.old }
    ensures { IsPassOf desk.now.turn pass.new }
{
    if !step.is_well_formed() {
        return Err("a step")?;
    }
    match desk.call(rt, pass, step) {
        Ok(given) => Ok(given),
        Err(_) => Err("memory")?,
    }
}

/// Submits the entry of a PIN.
pub fn submit_pin<R: Wait>(
    rt: &R,
    desk: &MemoryDesk,
    pass: &mut MemoryPass,
    session: Session,
) -> Result<Submitted, Fail>
    requires { IsPassOf desk.now.turn pass.old }
    ensures { IsPassOf desk.now.turn pass.new }
{
    let command = Command::GetPin(PIN);
    match desk.submit(rt, pass, session, 0, command) {
        Ok(submitted) => Ok(submitted),
        Err(_fault) => Err("memory")?,
    }
}

/// Asks for the reply of a request.
pub fn ask<R: Wait>(
    rt: &R,
    desk: &MemoryDesk,
    pass: &mut MemoryPass,
    session: Session,
    id: u32,
) -> Result<Collected, Fail>
    requires { IsPassOf desk.now.turn pass.old }
    ensures { IsPassOf desk.now.turn pass.new }
{
    match desk.collect(rt, pass, session, id) {
        Ok(collected) => Ok(collected),
        Err(_) => Err("memory")?,
    }
}

/// Takes the step that is due, if one is.
pub fn work<R: Wait>(rt: &R, desk: &MemoryDesk, pass: &mut MemoryPass) -> Result<Worked, Fail>
    requires { IsPassOf desk.now.turn pass.old }
    ensures { IsPassOf desk.now.turn pass.new }
{
    match desk.work(rt, pass) {
        Ok(worked) => Ok(worked),
        Err(_) => Err("memory")?,
    }
}

/// Presses keys one after another.
pub fn press_all<R: Wait>(
    rt: &R,
    desk: &MemoryDesk,
    pass: &mut MemoryPass,
    keys: &[Key],
) -> Result<(), Fail>
    requires { IsPassOf desk.now.turn pass.old }
    ensures { IsPassOf desk.now.turn pass.new }
{
    for key in keys {
        take(rt, desk, pass, Step::Press(*key))?;
    }
    Ok(())
}

/// Whether the reply is that of an entry of so many digits, ended by ENTER.
pub fn is_entered(reply: &Reply, digits: u8) -> bool {
    match reply {
        Reply::Ok(Answer::Entered(count, Completion::Enter)) => *count == digits,
        _ => false,
    }
}
