// What the pad holds: what is the same in twins, and the digits.
ghost use Rattle.std.specs.Prelude.{◌≡◌, ◌<◌, ◌≤◌, ◌+◌, ◌-◌, ◌^◌, [], IfOk, IsOk, IsSome, IsTrue, None, Some, false, length};
ghost use Rattle.std.specs.Option.{option_map};
ghost use Rattle.flat_machine.specs.DiskFacts.{IsKeptStore, KeepsStore};
ghost use Rattle.flat_machine.specs.Kept.{FitRunning, kept_next};
ghost use Rattle.flat_machine.specs.Machine.{has_pin, next_work};
ghost use Rattle.flat_machine.specs.Power.{word_fate};
ghost use Rattle.flat_machine.specs.State.{opening, running_entry};
ghost use Rattle.key_source.specs.declared.Key.{Key};
ghost use Rattle.pad_machine.specs.Does.{Becomes, Does};
ghost use Rattle.pad_machine.specs.Jobs.{job_of};
ghost use Rattle.pad_machine.specs.Memory.{places_for, takes_memory};
ghost use Rattle.pad_machine.specs.Prepares.{IsPlanned, IsPrepared, IsFormed, calls_of, deciding, effect_of, is_plain, places_of, pressed, said_of, switch_of, with_key};
ghost use Rattle.pad_machine.specs.Stands.{DrawnFew, IsSound, StandsFor, kept_by, pad_state, running_of, set_by, shared_of, status_with};
ghost use Rattle.pad_steps.specs.declared.steps.DiskWord.TheVariants.{Quiet};
ghost use Rattle.pad_steps.specs.declared.steps.DiskWord.{DiskWord};

mod ending;
mod entering;
mod finishing;
mod loading;

use crate::keyless::KeylessStep;
use crate::pad::Stepped;
use crate::prepared::Prepared;
use crate::running_entry::RunningEntry;
use crate::saying::say;
use crate::shared_part::Shared;
use crypt_commands::{CryptDone, CryptJob};
use disk_core::PowerDisk;
use flat_machine::laws::devices::quiet_steps_leave_the_disk;
use key_attributes::KeyRow;
use key_source::Key;
use pad_steps::{DiskWord, Out, Outs, Reply, Step, Told};
use pad_words::{Nibbles, NoMemory};
use pin_blocks::PinWork;
use pin_buffer::PinBuffer;
use std::alloc::Global;
use std::marker::Model;
use std::snapshot::Snapshot;

/// The seed of the fill words, what is the same in twins, the digits of the running entry, and the held PIN.
#[derive(Drop)]
pub struct Parts<W> {
    seed: [u8; 32],
    shared: Shared<W>,
    digits: Nibbles,
    held: PinBuffer,
}

impl<W> Model for Parts<W> {
    ghost use Rattle.pad_machine.specs.Stands.{Whole};

    ghost Value = { Whole };

    ghost view = { λ p. record { seed = p.seed; common = p.shared; digits = p.digits; held = p.held.digits } };
}

impl<W: PinWork + Drop> Parts<W> {
    pub fn new(alloc: Global, work: W, seed: [u8; 32]) -> Result<Parts<W>, NoMemory>
        ensures state { IfOk result (λ parts. StandsFor (pad_state parts) seed opening) }
        ensures store { IfOk result (λ parts. parts.common.store.bytes ≡ None) }
    {
        Ok(Parts {
            seed,
            shared: Shared::new(alloc, work)?,
            digits: Nibbles::empty(),
            held: PinBuffer::empty(),
        })
    }

    /// The seed, for clauses alone.
    pub fn seed(&self) -> Snapshot<[u8; 32]>
        ensures { result.value ≡ self.now.seed }
    {
        Snapshot::of(&self.seed)
    }

    /// The bytes of the store, while it is settled.
    pub fn bytes(&self) -> &[u8]
        requires { IsSome self.now.common.store.bytes }
        ensures { self.now.common.store.bytes ≡ Some result.now }
    {
        self.shared.bytes()
    }

    /// The key rows behind their slots.
    pub fn rows(&self) -> &[(u8, KeyRow)]
        ensures rows { result.now ≡ self.now.common.store.rows }
        ensures few { length result.now ≤ 64 }
    {
        self.shared.rows()
    }

    /// The step that is due.
    pub fn next_work(&self) -> Option<Step>
        requires { IsSound W.rules (shared_of self.now.common) }
        ensures { result ≡ next_work (shared_of self.now.common) }
    {
        self.shared.next_work()
    }

    /// The state as one number.
    pub fn status(&self) -> u64
        requires { IsSound W.rules (shared_of self.now.common) }
        ensures { result ≡ status_with (shared_of self.now.common) (has_pin self.now.held) }
    {
        self.shared.status(!self.held.digits().is_empty())
    }

    /// The running entry.
    pub fn running_entry(&self) -> Option<RunningEntry>
        requires { IsSound W.rules (shared_of self.now.common) }
        ensures { option_map running_of result ≡ running_entry (shared_of self.now.common) }
    {
        self.shared.running_entry()
    }

    /// The command CRYPT in work as a job, where the device is ready and the uses of its keys are permitted.
    pub fn job(&self) -> Result<Option<CryptJob>, NoMemory>
        requires { IsSound W.rules (shared_of self.now.common) }
        ensures job { IfOk result (λ job. job ≡ job_of (shared_of self.now.common)) }
        ensures memory { job_of (shared_of self.now.common) ≡ None → IsOk result }
    {
        self.shared.job()
    }

    /// What a step comes to. `done` is a command CRYPT that was run before. All that may want memory is done here, and no
    /// digit is seen. All is as before, but for places.
    pub fn prepare(
        &mut self,
        step: KeylessStep,
        done: Option<&CryptDone>,
        out: &mut Outs,
    ) -> Result<Prepared, NoMemory>
        requires sound { IsSound W.rules (shared_of self.old.common) }
        requires taken { IsFormed step }
        requires ids { length self.old.common.requests < 2 ^ 32 - 2 }
        ensures kept { pad_state self.new ≡ pad_state self.old }
        ensures items { out.new.items ≡ out.old.items }
        ensures room { IfOk result (λ prepared. places_of self.new.common prepared ≤ out.new.spare) }
        ensures fits { IfOk result (λ prepared.
            IsPrepared W.rules self.new.common (length self.new.held) prepared) }
        ensures does { IfOk result (λ prepared. (key : Key) (word : DiskWord) →
            effect_of W.rules (pressed (with_key step.entry key)) self.new prepared word
            ≡ kept_next (set_by W.rules self.new.seed) (kept_by self.new) (with_key step.entry key) word) }
        ensures planned { IfOk result (λ prepared. (key : Key) →
            IsPlanned (deciding W.rules) (shared_of self.new.common) prepared (with_key step.entry key)) }
        ensures memory { (key : Key) → takes_memory (shared_of self.old.common) (with_key step.entry key) ≡ false →
            places_for (shared_of self.old.common) (with_key step.entry key) ≤ out.old.spare → IsOk result }
    {
        let held = self.held.digits().len();
        self.shared.prepare(step, done, held, out)
    }

    /// Does what was prepared, with the key of a press. It takes no memory.
    pub fn perform<D: PowerDisk>(
        &mut self,
        disk: &mut D,
        prepared: Prepared,
        key: Option<Key>,
        out: &mut Outs,
    ) -> Stepped
        requires room { places_of self.old.common prepared ≤ out.old.spare }
        requires fits { IsPrepared W.rules self.old.common (length self.old.held) prepared }
        requires digits { FitRunning (kept_by self.old) }
        requires drawn { DrawnFew self.old.common }
        requires kept { IsKeptStore (shared_of self.old.common) self.old.common.store (D.state disk.old) }
        ensures becomes { Becomes self.new out.old out.new (effect_of W.rules key self.old prepared result.word) }
        ensures device { KeepsStore (shared_of self.old.common) (shared_of self.new.common) (switch_of prepared)
            (calls_of (shared_of self.old.common) prepared) result.word self.new.common.store (D.state disk.old) (D.state disk.new) }
        ensures fate { result.fate ≡ word_fate (shared_of self.old.common) result.word }
    {
        quiet_steps_leave_the_disk::<D>();
        match (prepared, key) {
            (Prepared::Press(current), Some(key)) => {
                self.press(current, key, out);
                quiet()
            }
            (Prepared::Finish(owner, work, told), _) => self.finish(disk, owner, work, told, out),
            (Prepared::Reset(owner, kept), _) => self.reset(disk, owner, kept, out),
            (Prepared::Boot(kept), _) => self.boot(disk, kept, out),
            (Prepared::Off, _) => self.stop(disk, out),
            (prepared, _) => {
                self.perform_keyless(prepared, out);
                quiet()
            }
        }
    }

    // Does what was prepared, where it is no press, and no call of the disk.
    fn perform_keyless(&mut self, prepared: Prepared, out: &mut Outs)
        requires room { places_of self.old.common prepared ≤ out.old.spare }
        requires fits { IsPrepared W.rules self.old.common (length self.old.held) prepared }
        requires plain { IsTrue (is_plain prepared) }
        ensures does { Does self.old self.new out.old out.new (λ shared held. said_of (set_by W.rules self.old.seed) prepared shared held Quiet) }
        ensures store { self.new.common.store ≡ self.old.common.store }
    {
        match prepared {
            Prepared::Say(item) => say(out, item),
            Prepared::Open(session) => {
                self.shared.open(session);
                say(out, Out::Told(session, Told::Opened));
            }
            Prepared::Close(session) => self.close(session, out),
            Prepared::Lock(session) => {
                let told = self.shared.line_up(session);
                say(out, Out::Told(session, told));
            }
            Prepared::Unlock(session) => self.unlock(session, out),
            Prepared::Cancel(session, floor, id, count) => {
                self.cancel(session, floor, id, count, out);
            }
            Prepared::Tick(clock) => self.tick(clock, out),
            Prepared::Submit(session, limit, command) => {
                let id = self.shared.submit(session, limit, command);
                say(out, Out::Request(session, id));
            }
            Prepared::Listen(session, classes) => {
                self.shared.listen(session, classes);
                say(out, Out::Told(session, Told::Listening(classes)));
            }
            Prepared::Begin(id) => {
                self.shared.begin(id);
                self.digits.clear();
            }
            Prepared::RefuseEntry(owner, refusal) => {
                let told = Reply::No(refusal.copy());
                self.shared.refuse_next(owner.id, refusal);
                self.digits.clear();
                say(out, Out::Ended(owner.session, owner.id, told));
            }
            Prepared::StartEntry(owner, kind) => self.start_entry(owner, kind, out),
            _ => {}
        }
    }
}

// Nothing was asked of the disk.
fn quiet() -> Stepped
    ensures word { result.word ≡ Quiet }
    ensures fate { result.fate ≡ None }
{
    Stepped {
        word: DiskWord::Quiet,
        fate: None,
    }
}
