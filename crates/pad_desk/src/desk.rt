//! Steps of one pad from any thread.
ghost use Rattle.std.specs.Prelude.{◌≡◌, ◌↔◌, ◌<◌, ◌≤◌, ◌^◌, ◌++◌, ◌∷◌, [], IfErr, IfOk, IsTrue, OnErr, length};
ghost use Rattle.disk_core.specs.DiskStates.{DiskState};
ghost use Rattle.flat_machine.specs.State.{opening};
ghost use Rattle.pad_desk.specs.Answers.{AnswersWith, DueRefused, Works, collect_out, submit_out};
ghost use Rattle.pad_desk.specs.Desks.{HasSeenMore, noted};
ghost use Rattle.pad_desk.specs.Histories.{Legal, status_after};
ghost use Rattle.pad_desk.specs.Machines.{HistoryOnDisk, IsFreshDisk, Stands};
ghost use Rattle.pad_desk.specs.Pending.{IsPendingFor, state_before};
ghost use Rattle.pad_desk.specs.declared.answers.Collected.TheVariants as collecting;
ghost use Rattle.pad_machine.specs.Stands.{StandsFor, set_by};
ghost use Rattle.pad_steps.specs.Formed.{is_well_formed};
ghost use Rattle.pad_steps.specs.declared.steps.Question.TheVariants as asked;
ghost use Rattle.pad_steps.specs.declared.steps.Step.TheVariants as steps;
ghost use Rattle.turnstile.specs.Entries.{Refuses};
ghost use Rattle.turnstile.specs.Rules.{NotesWithin, Settled, first_view, joined, new_seat, with_new_seat};
ghost use Rattle.turnstile.specs.Turns.{Closes, Enters, IsPassOf, Sees, view, made_with};

use crate::answers::{Collected, Submitted, Worked, collected_in, step_due, submitted_in};
use crate::machine::PadAndDisk;
use crate::outcome::StepOut;
use crypt_commands::CryptDone;
use disk_core::PowerDisk;
use flat_machine::laws::disk_runs::{disk_runs_join, store_history_goes_on};
use pad_machine::Pad;
use pad_steps::{Command, Question, Step};
use pad_words::{NoMemory, Session};
use pin_blocks::PinWork;
use std::alloc::Global;
use std::sync::Wait;
use turnstile::{CallFault, Given, Glance, Pass, Turn};

/// One pad with its disk, for applications on threads of their own. Each has a pass of its own.
#[derive(Drop)]
pub struct Desk<W: PinWork + Drop, D: PowerDisk + Drop> {
    pub(crate) turn: Turn<PadAndDisk<W, D>>,
}

/// A caller's pass at a desk.
pub type DeskPass<W, D> = Pass<PadAndDisk<W, D>>;

/// Why a step was not taken. The step comes back.
pub type DeskFault = CallFault<Step>;

/// The steps of a desk with what they came to, in their order.
pub type History = turnstile::History<Step, StepOut>;

impl<W: PinWork + Drop, D: PowerDisk + Drop> Desk<W, D> {
    /// A desk of this pad, which is off and took no step, and of this disk, of which no call failed or was cut and whose
    /// bytes are all zero where it tells them; and the first pass. Both are dropped where memory is wanting.
    pub fn new(
        alloc: Global,
        pad: Pad<W>,
        disk: D,
    ) -> Result<(Desk<W, D>, DeskPass<W, D>), NoMemory>
        requires pad { StandsFor pad pad.kept.seed opening }
        requires disk { IsFreshDisk (D.state disk) }
        ensures pass { IfOk result (λ made. IsPassOf made.0.turn made.1 × (view made.1 ≡ first_view pad.kept.seed)) }
        ensures pad { IfOk result (λ made. (made_with made.0.turn).pad ≡ pad) }
    {
        disk_runs_join::<D>();
        let (turn, pass) = Turn::new(alloc, PadAndDisk::new(alloc, pad, disk))?;
        Ok((Desk { turn }, pass))
    }

    /// Waits for a turn of its own, takes the step, and enters it with what it came to at the end of the history, under
    /// the pass's number. The promise holds if the call returns. Where it is refused nothing is entered, and the step
    /// comes back: for want of memory, or for a history of 1,048,576 entries.
    pub fn call<R: Wait>(
        &self,
        rt: &R,
        pass: &mut DeskPass<W, D>,
        step: Step,
    ) -> Result<Given<StepOut>, DeskFault>
        requires pass { IsPassOf self.now.turn pass.old }
        requires formed { IsTrue (is_well_formed step) }
        ensures pass { IsPassOf self.now.turn pass.new }
        ensures kept { view pass.new ≡ record (view pass.old) { seen = (view pass.new).seen; mine = (view pass.new).mine } }
        ensures entered { IfOk result (λ given.
            Enters (Legal W.rules) (status_after W.rules) (view pass.old) given.place step given.outcome (view pass.new)) }
        ensures seen { OnErr result (Sees (Legal W.rules) (status_after W.rules) (view pass.old) (view pass.new)) }
        ensures refused { IfErr result (Refuses step (length (view pass.new).seen)) }
    {
        self.turn.call(rt, pass, step)
    }

    /// Submits a command of a session, and answers what the pad said of it: its id, or why it is refused. It waits and is
    /// refused as `call` is.
    pub fn submit<R: Wait>(
        &self,
        rt: &R,
        pass: &mut DeskPass<W, D>,
        session: Session,
        limit: u32,
        command: Command,
    ) -> Result<Submitted, DeskFault>
        requires pass { IsPassOf self.now.turn pass.old }
        requires formed { IsTrue (is_well_formed (steps.Submit session limit command)) }
        ensures pass { IsPassOf self.now.turn pass.new }
        ensures kept { view pass.new ≡ record (view pass.old) { seen = (view pass.new).seen; mine = (view pass.new).mine } }
        ensures answered { IfOk result (λ submitted. AnswersWith W.rules (view pass.old)
            (steps.Submit session limit command) (submit_out session submitted) (view pass.new)) }
        ensures seen { OnErr result (Sees (Legal W.rules) (status_after W.rules) (view pass.old) (view pass.new)) }
        ensures refused { IfErr result (Refuses (steps.Submit session limit command) (length (view pass.new).seen)) }
    {
        match self.call(rt, pass, Step::Submit(session, limit, command)) {
            Ok(given) => Ok(submitted_in(session, given.outcome.outs.items())),
            Err(fault) => Err(fault),
        }
    }

    /// Asks for the reply of a request of a session, and answers what the pad said: that it is pending, the reply, or why
    /// the question is refused. It waits and is refused as `call` is.
    pub fn collect<R: Wait>(
        &self,
        rt: &R,
        pass: &mut DeskPass<W, D>,
        session: Session,
        id: u32,
    ) -> Result<Collected, DeskFault>
        requires { IsPassOf self.now.turn pass.old }
        ensures pass { IsPassOf self.now.turn pass.new }
        ensures kept { view pass.new ≡ record (view pass.old) { seen = (view pass.new).seen; mine = (view pass.new).mine } }
        ensures answered { IfOk result (λ collected. AnswersWith W.rules (view pass.old)
            (steps.Ask session (asked.Reply id)) (collect_out session id collected) (view pass.new)) }

        // Pending is answered exactly where the request was pending as the question came to its turn.
        ensures pending { IfOk result (λ collected. (collected ≡ collecting.Pending)
            ↔ IsPendingFor (state_before W.rules (view pass.new)).shared session id) }
        ensures seen { OnErr result (Sees (Legal W.rules) (status_after W.rules) (view pass.old) (view pass.new)) }
        ensures refused { IfErr result (Refuses (steps.Ask session (asked.Reply id)) (length (view pass.new).seen)) }
    {
        match self.call(rt, pass, Step::Ask(session, Question::Reply(id))) {
            Ok(given) => Ok(collected_in(session, id, given.outcome)),
            Err(fault) => Err(fault),
        }
    }

    /// Glances once, and takes the step that is due at the status that was shown, if one is. It waits and is refused as
    /// `call` is, where a step is due. A command CRYPT is run before its Finish comes to its turn, while others call.
    pub fn work<R: Wait>(&self, rt: &R, pass: &mut DeskPass<W, D>) -> Result<Worked, DeskFault>
        requires { IsPassOf self.now.turn pass.old }
        ensures pass { IsPassOf self.now.turn pass.new }
        ensures kept { view pass.new ≡ record (view pass.old)
            { seen = (view pass.new).seen; mine = (view pass.new).mine; notes = (view pass.new).notes } }
        ensures worked { IfOk result (λ worked. Works W.rules (view pass.old) worked (view pass.new)) }
        ensures refused { IfErr result (λ fault. DueRefused W.rules (view pass.old) fault (view pass.new)) }
    {
        let glance = self.glance(pass);
        match step_due(glance.status) {
            None => Ok(Worked::Nothing(glance)),
            Some(step) => match self.take_due(rt, pass, step) {
                Ok(given) => Ok(Worked::Did(given)),
                Err(fault) => Err(fault),
            },
        }
    }

    // Takes a step that was due, as `call` does.
    fn take_due<R: Wait>(
        &self,
        rt: &R,
        pass: &mut DeskPass<W, D>,
        step: Step,
    ) -> Result<Given<StepOut>, DeskFault>
        requires pass { IsPassOf self.now.turn pass.old }
        requires formed { IsTrue (is_well_formed step) }
        ensures pass { IsPassOf self.now.turn pass.new }
        ensures kept { view pass.new ≡ record (view pass.old) { seen = (view pass.new).seen; mine = (view pass.new).mine } }
        ensures entered { IfOk result (λ given.
            Enters (Legal W.rules) (status_after W.rules) (view pass.old) given.place step given.outcome (view pass.new)) }
        ensures seen { OnErr result (Sees (Legal W.rules) (status_after W.rules) (view pass.old) (view pass.new)) }
        ensures refused { IfErr result (Refuses step (length (view pass.new).seen)) }
    {
        match self.run_job(rt, pass, &step) {
            Some(done) => self.turn.call_with(rt, pass, step, done),
            None => self.turn.call(rt, pass, step),
        }
    }

    // The command CRYPT in work, run while others call: where the step is Finish, there is such a command, and memory
    // suffices.
    fn run_job<R: Wait>(&self, rt: &R, pass: &mut DeskPass<W, D>, step: &Step) -> Option<CryptDone>
        requires { IsPassOf self.now.turn pass.old }
        ensures pass { IsPassOf self.now.turn pass.new }
        ensures seen { HasSeenMore (view pass.old) (view pass.new) }
    {
        if !matches!(step, Step::Finish) {
            return None;
        }
        match self.turn.part(rt, pass) {
            Ok(Some(job)) => job.run().ok(),
            _ => None,
        }
    }

    /// Shows how long the history is now, and the status after it. It never waits and takes no memory. The pass notes it.
    pub fn glance(&self, pass: &mut DeskPass<W, D>) -> Glance
        requires { IsPassOf self.now.turn pass.old }
        ensures pass { IsPassOf self.now.turn pass.new }
        ensures note { view pass.new ≡ noted (view pass.old) result.length result.status }
        ensures seen { length (view pass.old).seen ≤ result.length }
        ensures notes { NotesWithin result.length (view pass.old).notes }
        ensures below { (result.length ≤ 1048576) × (result.status < 2 ^ 43) }
    {
        self.turn.glance(pass)
    }

    /// Seats another pass, which has seen what its maker has.
    pub fn seat(&self, pass: &mut DeskPass<W, D>) -> DeskPass<W, D>
        requires { IsPassOf self.now.turn pass.old }
        ensures pass { IsPassOf self.now.turn pass.new × IsPassOf self.now.turn result }
        ensures maker { view pass.new ≡ with_new_seat (view pass.old) }
        ensures made { view result ≡ new_seat (view pass.old) }
    {
        self.turn.seat(pass)
    }

    /// Takes another pass in. What the longer of the two has seen is kept, which begins with what each has; so are the
    /// notes of both, and the passes that the other knew, itself among them.
    pub fn join(&self, pass: &mut DeskPass<W, D>, other: DeskPass<W, D>)
        requires pass { IsPassOf self.now.turn pass.old }
        requires other { IsPassOf self.now.turn other }
        ensures pass { IsPassOf self.now.turn pass.new }
        ensures joined { Settled (joined (view pass.old) (view other)) (view pass.new) }
    {
        self.turn.join(pass, other)
    }

    /// Waits for a last turn, and gives the pad, its disk and the whole history. The promise holds if the call returns.
    pub fn close<R: Wait>(self, rt: &R, pass: DeskPass<W, D>) -> (Pad<W>, D, History)
        requires { IsPassOf self.turn pass }
        ensures stands { Stands D.state W.rules result.0 result.1 result.2 }
        ensures legal { Legal W.rules result.2 }

        // The seed is that of the pad with which the desk was made.
        ensures seed { result.0.kept.seed ≡ (view pass).origin }

        // What the disk has is what the words of the history tell.
        ensures disk { HistoryOnDisk (set_by W.rules result.0.kept.seed) result.2 (D.state result.1) }
        ensures whole { Closes (status_after W.rules) (view pass) result.2 }
    {
        store_history_goes_on::<D>();
        let (machine, history) = self.turn.close(rt, pass);
        let (pad, disk) = machine.parts();
        (pad, disk, history)
    }
}
