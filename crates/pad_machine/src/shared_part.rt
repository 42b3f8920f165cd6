// What is the same in twins: it holds no digit and sees no key of a press. All that may want memory is done here.
ghost use Rattle.std.specs.Prelude.{ℕ, ◌≡◌, ◌-◌, ◌<◌, ◌≤◌, ◌+◌, ◌^◌, IsTrue, IfOk, IfSome, IsOk, OnErr, OnOk, None, false, length, max};
ghost use Rattle.std.specs.Option.{option_copied, option_map};
ghost use Rattle.flat_machine.specs.Commands.{work_of};
ghost use Rattle.entry_core.specs.Entries.{entry_refusal};
ghost use Rattle.flat_machine.specs.EntrySteps.{first_of, next_begin};
ghost use Rattle.flat_machine.specs.FinishSteps.{next_finish};
ghost use Rattle.flat_machine.specs.Machine.{next_boot, next_off, next_work};
ghost use Rattle.flat_machine.specs.RequestSteps.{next_submit};
ghost use Rattle.flat_machine.specs.State.{device_refusal, opening, owner_of, running_entry};
ghost use Rattle.key_source.specs.declared.Key.{Key};
ghost use Rattle.pad_machine.specs.Jobs.{job_of};
ghost use Rattle.pad_machine.specs.Memory.{decides_list, pending_in_all, places_for, takes_memory};
ghost use Rattle.pad_machine.specs.Prepares.{AlwaysComesTo, ComesTo, IsCopy, IsInWork, IsNext, IsPartSized, IsPlanned, IsReady, IsStep, IsFormed, IsUnready, Prepares, deciding, next_owner, ready_work, session_refusal, told_of, with_key};
ghost use Rattle.pad_machine.specs.Stands.{IsSound, is_admitted, running_of, set_by, shared_of};
ghost use Rattle.pad_steps.specs.Formed.{is_well_formed_command};
ghost use Rattle.pad_steps.specs.declared.steps.Step.TheVariants.{Begin as BeginStep, Boot as BootStep, Finish as FinishStep, Off as OffStep, Press, Submit as SubmitStep};
ghost use Rattle.request_queue.specs.Requests.{pending_by_id, request_command, request_in_work};

mod asking;
mod changing;
mod ending;
mod powering;
mod sessions;
mod status;

use crate::crypts::{crypt_job, crypt_work};
use crate::doubt::Doubt;
use crate::imports::import_work;
use crate::keyless::KeylessStep;
use crate::pins::pin_work;
use crate::prepared::Prepared;
use crate::refusals::refused;
use crate::running_entry::RunningEntry;
use crate::submits::command_refusal;
use crypt_commands::{CryptDone, CryptJob};
use device_lock::Lock;
use entry_core::Entry;
use flat_machine::laws::kept::pending_commands_pass;
use flat_machine::laws::works::works_of_commands;
use flat_machine::types::{Device, Owner, Work};
use key_attributes::KeyRow;
use key_table::{StoredKeys, copy_rows};
use pad_steps::{Answer, Command, Out, Outs, Refusal, Reply, Step};
use pad_words::{NoMemory, Session};
use pin_blocks::PinWork;
use request_queue::Queue;
use request_queue::laws::pending_or_ended;
use secure_entry::PartBuffer;
use session_book::Book;
use std::alloc::Global;
use std::marker::Model;

/// The PIN work; the device, and the keys over their store with the slot in doubt; the open sessions, the line for the lock,
/// the requests and the clock; the part buffer, whether a used PIN is maintained, and how many fill words were drawn.
#[derive(Drop)]
pub struct Shared<W> {
    alloc: Global,
    work: W,
    device: Device,
    keys: StoredKeys,
    doubt: Option<Doubt>,
    is_loaded: bool,
    sessions: Book,
    line: Lock,
    requests: Queue<Command, Reply>,
    clock: u64,
    part: PartBuffer,
    is_maintained: bool,
    drawn: u64,
}

impl<W> Model for Shared<W> {
    ghost use Rattle.pad_machine.specs.Stands.{Common};

    ghost Value = { Common };

    ghost view = { λ s. record { device = s.device; store = s.keys; doubt = s.doubt; loaded = s.is_loaded; sessions = s.sessions; line = s.line; requests = s.requests.rows; clock = s.clock; part = s.part; maintain = s.is_maintained; drawn = s.drawn; room = s.requests.spare } };
}

impl<W: PinWork + Drop> Shared<W> {
    /// The device is off; no key is known, and nothing is open or asked. It takes the memory for all keys.
    pub fn new(alloc: Global, work: W) -> Result<Shared<W>, NoMemory>
        ensures state { IfOk result (λ shared. shared_of shared ≡ opening.shared) }
        ensures store { IfOk result (λ shared. shared.store.bytes ≡ None) }
    {
        Ok(Shared {
            alloc,
            work,
            device: Device::Off,
            keys: StoredKeys::new(alloc)?,
            doubt: None,
            is_loaded: false,
            sessions: Book::empty(),
            line: Lock::free(),
            requests: Queue::new(alloc),
            clock: 0,
            part: PartBuffer::empty(),
            is_maintained: false,
            drawn: 0,
        })
    }

    // Whose the request in work is.
    fn in_work(&self) -> Option<Owner>
        ensures owner { result ≡ option_map owner_of (request_in_work self.now.requests) }
        ensures at { IfSome result (λ owner. IsInWork self.now.requests owner.id) }
    {
        let id = self.requests.in_work()?;
        match self.requests.owner(id) {
            Some(session) => Some(Owner { id, session }),
            None => unreachable!(),
        }
    }

    // The command of a pending request.
    fn command_of(&self, id: u32) -> Option<&Command>
        requires sound { IsSound W.rules (shared_of self.now) }
        ensures command { option_copied result ≡ option_map request_command (pending_by_id id self.now.requests) }
        ensures admitted { IfSome result (λ command. IsTrue (is_admitted W.rules command.now)) }
    {
        pending_commands_pass();
        self.requests.command(id)
    }

    /// The running entry.
    #[tactic(auto, using(crate::proofs::AdmittedLemmas::admitted_size, crate::proofs::AdmittedLemmas::admitted_part))]
    pub fn running_entry(&self) -> Option<RunningEntry>
        requires { IsSound W.rules (shared_of self.now) }
        ensures entry { option_map running_of result ≡ running_entry (shared_of self.now) }
        ensures at { IfSome result (λ current. IsInWork self.now.requests current.owner.id) }
        ensures part { IfSome result (λ current. IsPartSized current.entry) }
    {
        let owner = self.in_work()?;
        let entry = Entry::of(self.command_of(owner.id)?)?;
        Some(RunningEntry { owner, entry })
    }

    /// The step that is due.
    #[tactic(auto, using(crate::proofs::AdmittedLemmas::admitted_size))]
    pub fn next_work(&self) -> Option<Step>
        requires { IsSound W.rules (shared_of self.now) }
        ensures { result ≡ next_work (shared_of self.now) }
    {
        let Some(owner) = self.in_work() else {
            return match self.requests.next_for(self.line.holder()) {
                Some(_) => Some(Step::Begin),
                None => None,
            };
        };
        match self.command_of(owner.id) {
            Some(command) if Entry::of(command).is_none() => Some(Step::Finish),
            _ => None,
        }
    }

    /// The command CRYPT in work as a job, where the device is ready and the uses of its keys are permitted.
    pub fn job(&self) -> Result<Option<CryptJob>, NoMemory>
        requires { IsSound W.rules (shared_of self.now) }
        ensures job { IfOk result (λ job. job ≡ job_of (shared_of self.now)) }
        ensures memory { job_of (shared_of self.now) ≡ None → IsOk result }
    {
        if self.device != Device::Ready {
            return Ok(None);
        }
        let Some(owner) = self.in_work() else {
            return Ok(None);
        };
        match self.command_of(owner.id) {
            Some(Command::Crypt(request)) => crypt_job(self.alloc, &self.keys, owner.id, request),
            _ => Ok(None),
        }
    }

    /// What a step comes to, at this number of held digits. `done` is a command CRYPT that was run before. All is as
    /// before, but for places.
    pub fn prepare(
        &mut self,
        step: KeylessStep,
        done: Option<&CryptDone>,
        held: usize,
        out: &mut Outs,
    ) -> Result<Prepared, NoMemory>
        requires sound { IsSound W.rules (shared_of self.old) }
        requires taken { IsFormed step }
        requires ids { length self.old.requests < 2 ^ 32 - 2 }
        requires few { held ≤ 16 }
        ensures ready { IfOk result (λ prepared. IsReady W.rules self.old self.new held out.old out.new prepared) }
        ensures does { IfOk result (λ prepared.
            (key : Key) → IsStep W.rules self.new held prepared (with_key step.entry key)) }
        ensures planned { IfOk result (λ prepared. (key : Key) →
            IsPlanned (deciding W.rules) (shared_of self.new) prepared (with_key step.entry key)) }
        ensures err { OnErr result (IsUnready self.old self.new out.old out.new) }
        ensures memory { (key : Key) → takes_memory (shared_of self.old) (with_key step.entry key) ≡ false →
            places_for (shared_of self.old) (with_key step.entry key) ≤ out.old.spare → IsOk result }
    {
        match step {
            KeylessStep::Open(session) => self.prepare_open(session, out),
            KeylessStep::Close(session) => self.prepare_close(session, out),
            KeylessStep::Lock(session) => self.prepare_lock(session, out),
            KeylessStep::Unlock(session) => self.prepare_unlock(session, out),
            KeylessStep::Listen(session, classes) => self.prepare_listen(session, classes, out),
            KeylessStep::Submit(session, limit, command) => {
                self.prepare_submit(session, limit, command, out)
            }
            KeylessStep::Cancel(session, id) => self.prepare_cancel(session, id, out),
            KeylessStep::Begin => self.prepare_begin(out),
            KeylessStep::Finish => self.prepare_finish(done, held, out),
            KeylessStep::Press => self.prepare_press(out),
            KeylessStep::Tick(ticks) => self.prepare_tick(ticks, out),
            KeylessStep::Ask(session, question) => self.prepare_ask(held, session, question, out),
            KeylessStep::Off => self.prepare_off(out),
            KeylessStep::Boot => self.prepare_boot(out),
        }
    }

    // What a press comes to.
    fn prepare_press(&self, out: &mut Outs) -> Result<Prepared, NoMemory>
        requires { IsSound W.rules (shared_of self.now) }
        ensures ready { Prepares W.rules self.now self.now out.old out.new result }
        ensures press { IfOk result (λ prepared.
            (held : ℕ) (key : Key) → IsStep W.rules self.now held prepared (Press key)) }
        ensures planned { IfOk result (λ prepared. (key : Key) →
            IsPlanned (deciding W.rules) (shared_of self.now) prepared (Press key)) }
        ensures memory { 2 ≤ out.old.spare → IsOk result }
    {
        out.reserve(2)?;
        match self.running_entry() {
            Some(current) => Ok(Prepared::Press(current)),
            None => Ok(Prepared::Nothing),
        }
    }

    // How many requests are pending.
    fn pending_in_all(&self) -> usize
        ensures { result ≡ pending_in_all self.now.requests }
    {
        pending_or_ended::<Command, Reply>();
        (self.requests.last_id() - self.requests.ended()) as usize
    }

    // The rows that are kept, with room for all that a store has.
    fn copy_of_rows(&self) -> Result<Vec<(u8, KeyRow)>, NoMemory>
        ensures { IfOk result (λ kept. IsCopy self.now.store.rows kept) }
    {
        let mut kept = match Vec::with_capacity(self.alloc, 65) {
            Ok(kept) => kept,
            Err(_) => return Err(NoMemory),
        };
        copy_rows(self.keys.rows(), &mut kept);
        Ok(kept)
    }

    // What Off comes to.
    fn prepare_off(&self, out: &mut Outs) -> Result<Prepared, NoMemory>
        ensures ready { Prepares W.rules self.now self.now out.old out.new result }
        ensures does { IfOk result (AlwaysComesTo W.rules self.now (λ shared word. next_off shared)) }
        ensures planned { IfOk result (λ prepared.
            IsPlanned (deciding W.rules) (shared_of self.now) prepared OffStep) }
        ensures memory { pending_in_all self.now.requests ≤ out.old.spare → IsOk result }
    {
        out.reserve(self.pending_in_all())?;
        if self.device == Device::Off {
            return Ok(Prepared::Nothing);
        }
        Ok(Prepared::Off)
    }

    // What Boot comes to.
    fn prepare_boot(&self, out: &mut Outs) -> Result<Prepared, NoMemory>
        ensures ready { Prepares W.rules self.now self.now out.old out.new result }
        ensures does { IfOk result (AlwaysComesTo W.rules self.now next_boot) }
        ensures planned { IfOk result (λ prepared.
            IsPlanned (deciding W.rules) (shared_of self.now) prepared BootStep) }
    {
        out.reserve(self.pending_in_all())?;
        if self.device != Device::Off {
            return Ok(Prepared::Nothing);
        }
        Ok(Prepared::Boot(self.copy_of_rows()?))
    }

    // Why a Submit of the session is refused, before its command is looked at.
    fn session_refusal(&self, session: Session) -> Option<Refusal>
        ensures { result ≡ session_refusal (shared_of self.now) session }
    {
        if !self.sessions.is_open(session) {
            return Some(Refusal::NoSession);
        }
        if self.device == Device::Off {
            return Some(Refusal::ConnectionLost);
        }
        if let Some(holder) = self.line.locked_out(session) {
            return Some(Refusal::Locked(holder));
        }
        if self.requests.pending(session) >= 16 {
            return Some(Refusal::QueueFull(16));
        }
        None
    }

    // What Submit comes to. All is as before, but for places.
    fn prepare_submit(
        &mut self,
        session: Session,
        limit: u32,
        command: &Command,
        out: &mut Outs,
    ) -> Result<Prepared, NoMemory>
        requires taken { IsTrue (is_well_formed_command command.now) }
        requires ids { length self.old.requests < 2 ^ 32 - 2 }
        ensures ready { Prepares W.rules self.old self.new out.old out.new result }
        ensures does { IfOk result (AlwaysComesTo W.rules self.new (λ shared word.
            next_submit W.rules shared session limit command.now)) }
        ensures planned { IfOk result (λ prepared.
            IsPlanned (deciding W.rules) (shared_of self.new) prepared (SubmitStep session limit command.now)) }
    {
        out.reserve(1)?;
        if let Some(refusal) = self.session_refusal(session) {
            return Ok(Prepared::Say(Out::Refused(session, refusal)));
        }
        if let Some(refusal) = command_refusal(&self.work, command) {
            return Ok(Prepared::Say(Out::Refused(session, refusal)));
        }
        self.requests.reserve()?;
        let command = command.copy(self.alloc)?;
        Ok(Prepared::Submit(session, limit, command))
    }

    // The request that comes into work next, with nothing in work.
    fn next_request(&self) -> Option<Owner>
        ensures owner { result ≡ next_owner (shared_of self.now) }
        ensures next { IfSome result (λ owner. IsNext self.now owner.id) }
    {
        if self.device == Device::Off || self.requests.in_work().is_some() {
            return None;
        }
        let id = self.requests.next_for(self.line.holder())?;
        match self.requests.owner(id) {
            Some(session) => Some(Owner { id, session }),
            None => unreachable!(),
        }
    }

    // What Begin comes to.
    fn prepare_begin(&self, out: &mut Outs) -> Result<Prepared, NoMemory>
        requires { IsSound W.rules (shared_of self.now) }
        ensures ready { Prepares W.rules self.now self.now out.old out.new result }
        ensures does { IfOk result (AlwaysComesTo W.rules self.now (λ shared word. next_begin shared)) }
        ensures planned { IfOk result (λ prepared.
            IsPlanned (deciding W.rules) (shared_of self.now) prepared BeginStep) }
        ensures memory { 1 ≤ out.old.spare → IsOk result }
    {
        out.reserve(1)?;
        let Some(owner) = self.next_request() else {
            return Ok(Prepared::Nothing);
        };
        let Some(command) = self.command_of(owner.id) else {
            return Ok(Prepared::Nothing);
        };
        let Some(entry) = Entry::of(command) else {
            return Ok(Prepared::Begin(owner.id));
        };
        match self.entry_refusal(&entry) {
            Some(refusal) => Ok(Prepared::RefuseEntry(owner, refusal)),
            None => Ok(Prepared::StartEntry(owner, entry.kind())),
        }
    }

    // What Finish comes to, at this number of held digits.
    fn prepare_finish(
        &self,
        done: Option<&CryptDone>,
        held: usize,
        out: &mut Outs,
    ) -> Result<Prepared, NoMemory>
        requires sound { IsSound W.rules (shared_of self.now) }
        requires few { held ≤ 16 }
        ensures ready { IfOk result (λ prepared. IsReady W.rules self.now self.now held out.old out.new prepared) }
        ensures does { IfOk result (λ prepared.
            ComesTo W.rules self.now held prepared (λ seed shared digits word.
            next_finish (set_by W.rules seed) shared digits word)) }
        ensures planned { IfOk result (λ prepared.
            IsPlanned (deciding W.rules) (shared_of self.now) prepared FinishStep) }
        ensures err { OnErr result (IsUnready self.now self.now out.old out.new) }
        ensures memory { takes_memory (shared_of self.now) FinishStep ≡ false →
            places_for (shared_of self.now) FinishStep ≤ out.old.spare → IsOk result }
    {
        works_of_commands();
        out.reserve((self.sessions.len() + 1).max(self.pending_in_all()))?;
        let Some(owner) = self.in_work() else {
            return Ok(Prepared::Nothing);
        };
        let Some(command) = self.command_of(owner.id) else {
            return Ok(Prepared::Nothing);
        };
        if matches!(command, Command::Reset) {
            return Ok(Prepared::Reset(owner, self.copy_of_rows()?));
        }
        let work = self.decide(held, owner.id, command, done)?;
        let told = told(self.alloc, &work)?;
        Ok(Prepared::Finish(owner, work, told))
    }

    // Why the device refuses a command that needs its keys: it is stopped or bad.
    fn device_refusal(&self) -> Option<Refusal>
        ensures { result ≡ device_refusal self.now.device }
    {
        match self.device {
            Device::Off | Device::Ready => None,
            Device::Stopped => Some(Refusal::HardwareError),
            Device::Bad(slot) => Some(Refusal::BadStore(slot)),
        }
    }

    // Why an entry is refused as it is taken: by the device, or by its rules.
    fn entry_refusal(&self, entry: &Entry) -> Option<Refusal>
        ensures { result ≡ first_of (device_refusal self.now.device) (entry_refusal entry.now) }
    {
        match self.device_refusal() {
            Some(refusal) => Some(refusal),
            None => entry.refusal().map(|fault| fault.refusal()),
        }
    }

    // What the command of the request with this id comes to now, at this number of held digits.
    fn decide(
        &self,
        held: usize,
        id: u32,
        command: &Command,
        done: Option<&CryptDone>,
    ) -> Result<Work, NoMemory>
        requires admitted { IsTrue (is_admitted W.rules command.now) }
        requires few { held ≤ 16 }
        ensures work { IfOk result (λ work.
            work ≡ work_of (deciding W.rules) (shared_of self.now) held command.now) }
        ensures memory { decides_list command.now ≡ false → IsOk result }
    {
        match command {
            // An entry ends by a key.
            Command::GetPin(_) | Command::GetData(_) | Command::SecureKeyEntry(_) => Ok(
                Work::Waits,
            ),
            Command::Reset => Ok(Work::Load),
            Command::RsaImport => Ok(refused(Refusal::UnsuppCommand)),
            _ => match self.device_refusal() {
                Some(refusal) => Ok(refused(refusal)),
                None => self.decide_ready(held, id, command, done),
            },
        }
    }

    // What a command comes to on a device that does not refuse it.
    fn decide_ready(
        &self,
        held: usize,
        id: u32,
        command: &Command,
        done: Option<&CryptDone>,
    ) -> Result<Work, NoMemory>
        requires admitted { IsTrue (is_admitted W.rules command.now) }
        requires few { held ≤ 16 }
        requires device { device_refusal self.now.device ≡ None }
        ensures work { IfOk result (λ work.
            work ≡ ready_work (deciding W.rules) (shared_of self.now) held command.now) }
        ensures memory { decides_list command.now ≡ false → IsOk result }
    {
        match command {
            Command::MaintainPin(on) => Ok(Work::Maintain(*on)),
            Command::Pin(request) => pin_work(self.alloc, &self.work, &self.keys, held, request),
            Command::Crypt(request) => crypt_work(self.alloc, &self.keys, id, request, done),
            Command::ImportKey(request) => Ok(import_work(&self.keys, &self.part, request)),
            Command::DeleteKey(name) => match self.keys.slot_of(name) {
                Some(slot) => Ok(Work::Erase(slot)),
                None => Ok(refused(Refusal::KeyNotFound)),
            },
            Command::Init => Ok(Work::EraseAll),
            _ => Ok(Work::Waits),
        }
    }
}

// The answer of a work once more, to be told. It takes memory for the answer of CRYPT alone.
fn told(alloc: Global, work: &Work) -> Result<Option<Answer>, NoMemory>
    ensures told { IfOk result (λ told. told ≡ told_of work.now) }
    ensures memory { told_of work.now ≡ None → IsOk result }
{
    match work {
        Work::Answer(answer) => Ok(Some(answer.copy(alloc)?)),
        _ => Ok(None),
    }
}
