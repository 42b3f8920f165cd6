//! The pad and its step.
ghost use Rattle.std.specs.Prelude.{◌≡◌, ◌<◌, ◌≤◌, ◌+◌, ◌-◌, ◌^◌, ℕ, List, IsTrue, IfOk, IfSome, IsOk, None, OnErr, OnOk, Some, false, length, true};
ghost use Rattle.flat_machine.specs.Machine.{has_pin, is_masked, next_work, status};
ghost use Rattle.flat_machine.specs.RequestFacts.{draws, work_left};
ghost use Rattle.flat_machine.specs.State.{Flat, is_off, is_ready, opening};
ghost use Rattle.pad_machine.specs.Does.{Undone};
ghost use Rattle.pad_machine.specs.Jobs.{job_of};
ghost use Rattle.pad_machine.specs.Memory.{places_for, takes_memory};
ghost use Rattle.pad_machine.specs.Runs.{HistoryGoesOn, IsKeptStep, IsMachineStep, IsPadStep, PadIsTied, PadStepOnDisk, Unwinds};
ghost use Rattle.pad_machine.specs.Stands.{StandsFor, status_with};
ghost use Rattle.pad_steps.specs.Formed.{is_well_formed};

mod twice;

use crate::keyless::{pressed_key, without_key};
use crate::parts::Parts;
use crypt_commands::{CryptDone, CryptJob};
use disk_core::PowerDisk;
use flat_machine::laws::devices::few_words_are_drawn;
use flat_machine::laws::disk_runs::store_history_goes_on;
use flat_machine::laws::kept::{digits_fit_their_entry, kept_steps, pending_stay_sound};
use flat_machine::laws::requests::due_steps_come_to_an_end;
use flat_machine::laws::twins::unwinding;
use pad_steps::{DiskWord, Fate, Outs, Step};
use pad_words::NoMemory;
use pin_blocks::PinWork;
use std::alloc::Global;
use std::marker::Model;
use std::snapshot::Snapshot;

/// What a step came to, besides what it says.
#[derive(Drop)]
pub struct Stepped {
    pub word: DiskWord,
    /// How the rows that were loaded compare with those that were kept. It is there for a loading that succeeded alone.
    pub fate: Option<Fate>,
}

/// The pad: what is the same in twins, the digits of the running entry, and the held PIN.
#[derive(Drop)]
pub struct Pad<W: PinWork> {
    parts: Parts<W>,
}

impl<W: PinWork> Model for Pad<W> {
    ghost use Rattle.pad_machine.specs.Stands.{IsPadState, PadState, pad_state};

    ghost Value = { PadState };

    ghost view = { λ p. pad_state p.parts };

    ghost invariant = { λ p. IsPadState W.rules (pad_state p.parts) };
}

impl<W: PinWork + Drop> Pad<W> {
    /// A pad that is off, over this PIN work, with this seed of its fill words. It takes the memory for all its keys.
    pub fn new(alloc: Global, work: W, seed: [u8; 32]) -> Result<Pad<W>, NoMemory>
        ensures { IfOk result (λ pad. StandsFor pad seed opening) }
    {
        Ok(Pad {
            parts: Parts::new(alloc, work, seed)?,
        })
    }

    /// Takes one step over its disk, and appends what it says. After want of memory all is as before.
    ///
    /// First all memory is taken, by what sees neither a digit nor the key of a press; then the step is done, which cannot
    /// fail. So no digit decides whether memory is wanting, and no memory is wanting once the disk was called.
    pub fn step<D: PowerDisk>(
        &mut self,
        disk: &mut D,
        step: &Step,
        out: &mut Outs,
    ) -> Result<Stepped, NoMemory>
        requires formed { IsTrue (is_well_formed step.now) }
        requires ids { length self.old.kept.shared.requests < 2 ^ 32 - 2 }

        // The disk is on while the device is not off, and has the store's bytes while it is ready; and so it is after the step.
        requires tied { PadIsTied self.old (D.state disk.old) }
        ensures tied { OnOk result (PadIsTied self.new (D.state disk.new)) }
        ensures machine { IfOk result (λ stepped. (seed : List ℕ) (state : Flat) → StandsFor self.old seed state →
            IsMachineStep W.rules self.new out.old.items out.new.items step.now stepped seed state) }
        ensures on_disk { IfOk result (λ stepped.
            PadStepOnDisk W.rules self.old self.new step.now stepped.word (D.state disk.old) (D.state disk.new)) }
        ensures history { IfOk result (λ stepped. (seed : List ℕ) (state : Flat) → StandsFor self.old seed state →
            HistoryGoesOn W.rules step.now stepped.word seed state (D.state disk.old) (D.state disk.new)) }
        ensures unwinding { IfOk result (λ stepped. (seed : List ℕ) (state : Flat) → StandsFor self.old seed state →
            Unwinds W.rules step.now stepped.word seed state) }
        ensures err { OnErr result (Undone self.old self.new out.old.items out.new.items) }
        ensures disk_err { OnErr result (disk.new ≡ disk.old) }

        // Memory is wanted by a Submit, by the Finish of CRYPT, of RESET and of a PIN command that is neither a block nor a
        // check, by Boot, by Ask of names and of a reply, by a Tick whose clock 64 bits do not hold, and for places that are
        // not spare.
        ensures memory { takes_memory self.old.kept.shared step.now ≡ false →
            places_for self.old.kept.shared step.now ≤ out.old.spare → IsOk result }

        // A step that was due leaves less to do, and a step draws one id at most.
        ensures less { OnOk result (is_off self.old.kept.shared.device ≡ false → next_work self.old.kept.shared ≡ Some step.now →
            work_left self.new.kept.shared.requests < work_left self.old.kept.shared.requests) }
        ensures ids { OnOk result (length self.new.kept.shared.requests ≤ length self.old.kept.shared.requests + draws step.now) }
    {
        self.take_step(disk, step, None, out)
    }

    // Takes one step, as `step` does, and tells of what is kept too. `done` is a command CRYPT that was run before.
    fn take_step<D: PowerDisk>(
        &mut self,
        disk: &mut D,
        step: &Step,
        done: Option<&CryptDone>,
        out: &mut Outs,
    ) -> Result<Stepped, NoMemory>
        requires formed { IsTrue (is_well_formed step.now) }
        requires ids { length self.old.kept.shared.requests < 2 ^ 32 - 2 }
        requires tied { PadIsTied self.old (D.state disk.old) }
        ensures step { IfOk result (λ stepped. IsPadStep W.rules self.old self.new
            out.old.items out.new.items step.now stepped (D.state disk.old) (D.state disk.new)) }
        ensures kept { IfOk result (λ stepped.
            IsKeptStep W.rules self.old self.new out.old.items out.new.items step.now stepped.word) }
        ensures err { OnErr result (Undone self.old self.new out.old.items out.new.items) }
        ensures disk_err { OnErr result (disk.new ≡ disk.old) }
        ensures memory { takes_memory self.old.kept.shared step.now ≡ false →
            places_for self.old.kept.shared step.now ≤ out.old.spare → IsOk result }
    {
        kept_steps();
        unwinding();
        due_steps_come_to_an_end();
        digits_fit_their_entry();
        pending_stay_sound();
        few_words_are_drawn();
        store_history_goes_on::<D>();
        let prepared = self.parts.prepare(without_key(step), done, out)?;
        Ok(self.parts.perform(disk, prepared, pressed_key(step), out))
    }

    /// The command CRYPT in work, to be run apart from the pad. There is a job exactly where the device is ready, the
    /// request in work is of such a command, and its keys are permitted their uses; no command of a PIN becomes one.
    /// Memory is wanted where there is a job alone.
    pub fn job(&self) -> Result<Option<CryptJob>, NoMemory>
        ensures state { IfOk result (λ job. (seed : List ℕ) (state : Flat) →
            StandsFor self.now seed state → job ≡ job_of state.shared) }
        ensures kept { IfOk result (λ job. job ≡ job_of self.now.kept.shared) }
        ensures memory { job_of self.now.kept.shared ≡ None → IsOk result }
    {
        self.parts.job()
    }

    /// The bytes of the store, of a device that is ready.
    pub fn bytes(&self) -> &[u8]
        requires { is_ready self.now.kept.shared.device ≡ true }
        ensures { self.now.stored ≡ Some result.now }
    {
        self.parts.bytes()
    }

    /// The seed of the fill words, for clauses alone: what is given has no bytes.
    pub fn seed(&self) -> Snapshot<[u8; 32]>
        ensures { result.value ≡ self.now.kept.seed }
    {
        self.parts.seed()
    }

    /// The step that is due: Finish of a command in work that is no entry, or Begin where nothing is in work and a request waits.
    pub fn next_work(&self) -> Option<Step>
        ensures due { (seed : List ℕ) (state : Flat) →
            StandsFor self.now seed state → result ≡ next_work state.shared }
        ensures kept { result ≡ next_work self.now.kept.shared }
        ensures formed { IfSome result (λ step. IsTrue (is_well_formed step)) }
        ensures on { IfSome result (λ step. is_off self.now.kept.shared.device ≡ false) }
        ensures draws { IfSome result (λ step. draws step ≡ 0) }
    {
        self.parts.next_work()
    }

    /// The state as one number: the device (off 0, ready 1, stopped 2, bad 3), 4 if an entry runs, 8 if a PIN is held, 16
    /// times the work that is due (none 0, Begin 1, Finish 2), 64 times the session that holds the lock (0 for none), and
    /// 2,048 times the number of ended requests.
    pub fn status(&self) -> u64
        ensures state { (seed : List ℕ) (state : Flat) →
            StandsFor self.now seed state → result ≡ status state }
        ensures kept { result ≡ status_with self.now.kept.shared (has_pin self.now.kept.held) }
    {
        self.parts.status()
    }

    /// Whether the step is a press of an active digit of a running PIN entry.
    pub fn is_masked(&self, step: &Step) -> bool
        ensures { (seed : List ℕ) (state : Flat) →
            StandsFor self.now seed state → result ≡ is_masked state.shared step.now }
    {
        match step {
            Step::Press(key) => match self.parts.running_entry() {
                Some(current) => current.entry.is_masked(*key),
                None => false,
            },
            _ => false,
        }
    }
}
