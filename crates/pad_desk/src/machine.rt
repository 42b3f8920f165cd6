//! What lies behind the turn: the pad with its disk.
ghost use Rattle.std.specs.Prelude.{◌≡◌, ◌<◌, ◌-◌, ◌≤◌, ◌^◌, IfOk, IsTrue, OnErr, length};
ghost use Rattle.flat_machine.specs.State.{opening};
ghost use Rattle.pad_machine.specs.Runs.{PadIsTied};
ghost use Rattle.pad_machine.specs.Stands.{StandsFor};
ghost use Rattle.pad_machine.specs.TwiceSteps.{IsToldTwice};
ghost use Rattle.pad_steps.specs.Formed.{is_well_formed};

use crate::outcome::{StepOut, StepOuts};
use crypt_commands::{CryptDone, CryptJob};
use disk_core::PowerDisk;
use flat_machine::laws::disk_runs::{
    bad_stores_were_read, disk_runs_join, key_layout_tells_apart, loaded_rows_are_known,
    store_history_goes_on, zero_bytes_have_no_bad_slot,
};
use pad_machine::{Pad, Stepped};
use pad_steps::{Outs, Step};
use pad_words::NoMemory;
use pin_blocks::PinWork;
use std::alloc::Global;
use turnstile::{Entry, Machine};

/// A pad with its disk.
#[derive(Drop)]
pub struct PadAndDisk<W: PinWork + Drop, D: PowerDisk + Drop> {
    pub(crate) pad: Pad<W>,
    pub(crate) disk: D,
    alloc: Global,
    ghost few: { length pad.kept.shared.requests ≤ 1048576 },
}

impl<W: PinWork + Drop, D: PowerDisk + Drop> PadAndDisk<W, D> {
    ghost use Rattle.pad_desk.specs.Machines.{Stands};
    ghost use Rattle.turnstile.specs.Machines.{Appends, HasRoom};

    /// This pad, which took no step, with this disk.
    pub(crate) fn new(alloc: Global, pad: Pad<W>, disk: D) -> PadAndDisk<W, D>
        requires { StandsFor pad pad.kept.seed opening }
        ensures { (result.pad ≡ pad) × (result.disk ≡ disk) }
    {
        PadAndDisk { pad, disk, alloc }
    }

    /// The pad and the disk.
    pub(crate) fn parts(self) -> (Pad<W>, D)
        ensures { (result.0 ≡ self.pad) × (result.1 ≡ self.disk) }
    {
        (self.pad, self.disk)
    }

    // Takes a step, as `apply` does. `done` is a command CRYPT that was run before.
    fn take(
        &mut self,
        step: &Step,
        done: Option<&CryptDone>,
    ) -> Result<(StepOut, StepOut), NoMemory>
        requires room { HasRoom (λ m h. Stands D.state W.rules m.pad m.disk h) self.old }
        requires allowed { IsTrue (is_well_formed step.now) }
        ensures twice { IfOk result (λ given. given.0 ≡ given.1) }
        ensures entered { IfOk result (λ given.
            Appends (λ m h. Stands D.state W.rules m.pad m.disk h) self.old self.new step.now given.0) }
        ensures origin { self.new.pad.kept.seed ≡ self.old.pad.kept.seed }
        ensures unchanged { OnErr result (self.new ≡ self.old) }
    {
        disk_runs_join::<D>();
        key_layout_tells_apart();
        store_history_goes_on::<D>();
        loaded_rows_are_known();
        bad_stores_were_read::<D>();
        zero_bytes_have_no_bad_slot();
        let mut outs = Outs::new(self.alloc)?;
        let mut again = Outs::new(self.alloc)?;
        let masked = self.pad.is_masked(step);
        let seed = self.pad.seed();
        let second_seed = self.pad.seed();
        let (first, second) = take_twice(
            &mut self.pad,
            &mut self.disk,
            step,
            done,
            &mut outs,
            &mut again,
        )?;
        Ok((
            StepOut {
                word: first.word,
                outs: StepOuts::of(outs, seed),
                masked,
                fate: first.fate,
            },
            StepOut {
                word: second.word,
                outs: StepOuts::of(again, second_seed),
                masked,
                fate: second.fate,
            },
        ))
    }
}

// Takes a step that is told twice: Finish with a command CRYPT that was run before, where there is one.
fn take_twice<W: PinWork + Drop, D: PowerDisk>(
    pad: &mut Pad<W>,
    disk: &mut D,
    step: &Step,
    done: Option<&CryptDone>,
    outs: &mut Outs,
    again: &mut Outs,
) -> Result<(Stepped, Stepped), NoMemory>
    requires formed { IsTrue (is_well_formed step.now) }
    requires ids { length pad.old.kept.shared.requests < 2 ^ 32 - 2 }
    requires tied { PadIsTied pad.old (D.state disk.old) }
    ensures told { IfOk result (λ both. IsToldTwice W.rules pad.old pad.new outs.old.items outs.new.items
        again.old.items again.new.items step.now both (D.state disk.old) (D.state disk.new)) }
    ensures pad_err { OnErr result (pad.new ≡ pad.old) }
    ensures disk_err { OnErr result (disk.new ≡ disk.old) }
{
    match (step, done) {
        (Step::Finish, Some(done)) => pad.step_done(disk, done, outs, again),
        _ => pad.step_twice(disk, step, outs, again),
    }
}

impl<W: PinWork + Drop, D: PowerDisk + Drop> Machine for PadAndDisk<W, D> {
    type Op = Step;

    type Outcome = StepOut;

    type Part = CryptJob;

    type Help = CryptDone;

    ghost use Rattle.std.specs.Prelude.{◌≡◌, IsTrue};
    ghost use Rattle.pad_desk.specs.Histories.{Legal, status_after};
    ghost use Rattle.pad_desk.specs.Jobs.{job_after};
    ghost use Rattle.pad_desk.specs.Machines.{Stands};
    ghost use Rattle.pad_desk.specs.Stands.{legal-none, legal-stands};
    ghost use Rattle.pad_steps.specs.Formed.{is_well_formed};

    ghost stands = { λ m h. Stands D.state W.rules m.pad m.disk h };

    ghost origin = { λ m. m.pad.kept.seed };

    ghost legal = { Legal W.rules };

    ghost allows = { λ step. IsTrue (is_well_formed step) };

    ghost status_after = { status_after W.rules };

    ghost part_fits = { λ job h. job ≡ job_after W.rules h };

    ghost legal_empty = { legal-none W.rules };

    ghost legal_if = { λ m h stands. legal-stands D.state W.rules m.pad m.disk h stands };

    fn apply(&mut self, op: &Step) -> Result<(StepOut, StepOut), NoMemory> {
        self.take(op, None)
    }

    fn apply_with(&mut self, op: &Step, help: &CryptDone) -> Result<(StepOut, StepOut), NoMemory> {
        self.take(op, Some(help))
    }

    fn part(&self) -> Result<Option<CryptJob>, NoMemory> {
        self.pad.job()
    }

    fn status(&self) -> u64 {
        self.pad.status()
    }
}
