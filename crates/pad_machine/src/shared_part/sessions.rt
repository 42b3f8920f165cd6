// Open, Close, Listen, Lock and Unlock.
ghost use Rattle.std.specs.Prelude.{◌≡◌, ◌<◌, ◌≤◌, ◌+◌, ◌-◌, ◌^◌, IfOk, IsOk, length, true};
ghost use Rattle.device_lock.specs.LockLine.{holds, in_line, locked_out, out_of_line};
ghost use Rattle.flat_machine.specs.SessionSteps.{next_close, next_listen, next_lock, next_open, next_unlock};
ghost use Rattle.flat_machine.specs.Sessions.{grants, grants_after, told_lock};
ghost use Rattle.pad_machine.specs.Endings.{granted_to};
ghost use Rattle.pad_machine.specs.Prepares.{AlwaysComesTo, IsPlanned, Prepares, deciding};
ghost use Rattle.pad_machine.specs.Stands.{shared_of};
ghost use Rattle.pad_machine.specs.declared.prepared.Prepared.TheVariants.{Say};
ghost use Rattle.pad_steps.specs.declared.answers.Out.TheVariants.{Told as OutTold};
ghost use Rattle.pad_steps.specs.declared.answers.Told.TheVariants.{No as ToldNo};
ghost use Rattle.pad_steps.specs.declared.steps.Step.TheVariants.{Close as CloseStep, Listen as ListenStep, Lock as LockStep, Open as OpenStep, Unlock as UnlockStep};
ghost use Rattle.request_queue.specs.Requests.{pending_count};
ghost use Rattle.session_book.specs.Sessions.{without_session};

use super::Shared;
use crate::prepared::Prepared;
use device_lock::LockAnswer;
use pad_steps::{Classes, Out, Outs, Refusal, Told};
use pad_words::{NoMemory, Session};
use pin_blocks::PinWork;

impl<W: PinWork + Drop> Shared<W> {
    // What Open comes to.
    pub(super) fn prepare_open(
        &self,
        session: Session,
        out: &mut Outs,
    ) -> Result<Prepared, NoMemory>
        requires { length self.now.requests < 2 ^ 32 - 2 }
        ensures ready { Prepares W.rules self.now self.now out.old out.new result }
        ensures does { IfOk result (AlwaysComesTo W.rules self.now (λ shared word. next_open shared session)) }
        ensures planned { IfOk result (λ prepared.
            IsPlanned (deciding W.rules) (shared_of self.now) prepared (OpenStep session)) }
        ensures memory { 1 ≤ out.old.spare → IsOk result }
    {
        out.reserve(1)?;
        if self.sessions.is_open(session) {
            return Ok(told_no(session, Refusal::AlreadyOpen));
        }
        Ok(Prepared::Open(session))
    }

    // What Listen comes to.
    pub(super) fn prepare_listen(
        &self,
        session: Session,
        classes: Classes,
        out: &mut Outs,
    ) -> Result<Prepared, NoMemory>
        ensures ready { Prepares W.rules self.now self.now out.old out.new result }
        ensures does { IfOk result (AlwaysComesTo W.rules self.now (λ shared word. next_listen shared session classes)) }
        ensures planned { IfOk result (λ prepared.
            IsPlanned (deciding W.rules) (shared_of self.now) prepared (ListenStep session classes)) }
        ensures memory { 1 ≤ out.old.spare → IsOk result }
    {
        out.reserve(1)?;
        if self.sessions.is_open(session) {
            Ok(Prepared::Listen(session, classes))
        } else {
            Ok(told_no(session, Refusal::NoSession))
        }
    }

    // What Close comes to.
    pub(super) fn prepare_close(
        &self,
        session: Session,
        out: &mut Outs,
    ) -> Result<Prepared, NoMemory>
        ensures ready { Prepares W.rules self.now self.now out.old out.new result }
        ensures does { IfOk result (AlwaysComesTo W.rules self.now (λ shared word. next_close shared session)) }
        ensures planned { IfOk result (λ prepared.
            IsPlanned (deciding W.rules) (shared_of self.now) prepared (CloseStep session)) }
        ensures memory { pending_count session self.now.requests + 2 ≤ out.old.spare → IsOk result }
    {
        out.reserve(usize::from(self.requests.pending(session)) + 2)?;
        if self.sessions.is_open(session) {
            Ok(Prepared::Close(session))
        } else {
            Ok(told_no(session, Refusal::NoSession))
        }
    }

    // What Lock comes to.
    pub(super) fn prepare_lock(
        &self,
        session: Session,
        out: &mut Outs,
    ) -> Result<Prepared, NoMemory>
        ensures ready { Prepares W.rules self.now self.now out.old out.new result }
        ensures does { IfOk result (AlwaysComesTo W.rules self.now (λ shared word. next_lock shared session)) }
        ensures planned { IfOk result (λ prepared.
            IsPlanned (deciding W.rules) (shared_of self.now) prepared (LockStep session)) }
        ensures memory { 1 ≤ out.old.spare → IsOk result }
    {
        out.reserve(1)?;
        if self.sessions.is_open(session) {
            Ok(Prepared::Lock(session))
        } else {
            Ok(told_no(session, Refusal::NoSession))
        }
    }

    // What Unlock comes to.
    pub(super) fn prepare_unlock(
        &self,
        session: Session,
        out: &mut Outs,
    ) -> Result<Prepared, NoMemory>
        ensures ready { Prepares W.rules self.now self.now out.old out.new result }
        ensures does { IfOk result (AlwaysComesTo W.rules self.now (λ shared word. next_unlock shared session)) }
        ensures planned { IfOk result (λ prepared.
            IsPlanned (deciding W.rules) (shared_of self.now) prepared (UnlockStep session)) }
        ensures memory { 2 ≤ out.old.spare → IsOk result }
    {
        out.reserve(2)?;
        if !self.sessions.is_open(session) {
            return Ok(told_no(session, Refusal::NoSession));
        }
        if !self.line.holds(session) {
            return Ok(told_no(session, Refusal::NotLocked));
        }
        Ok(Prepared::Unlock(session))
    }

    /// The session is closed and leaves the line. Where it held the lock, this is the session that is granted it.
    pub fn close(&mut self, session: Session) -> Option<Session>
        ensures granted { granted_to result ≡ grants_after session self.old.line }
        ensures store { self.new.store ≡ self.old.store }
        ensures state { shared_of self.new
            ≡ record (shared_of self.old) { sessions = without_session session self.old.sessions; line = out_of_line session self.old.line } }
    {
        let _ = self.sessions.depart(session);
        self.line.leave(session)
    }

    /// The session stands in the line, and this is what it is told.
    pub fn line_up(&mut self, session: Session) -> Told
        ensures told { result ≡ told_lock (locked_out session self.old.line) }
        ensures store { self.new.store ≡ self.old.store }
        ensures state { shared_of self.new ≡ record (shared_of self.old) { line = in_line session self.old.line } }
    {
        match self.line.ask(session) {
            LockAnswer::Granted => Told::Granted,
            LockAnswer::Waiting(holder) => Told::Waiting(holder),
        }
    }

    /// The session, which holds the lock, leaves the line. This is the session that is granted the lock.
    pub fn unlock(&mut self, session: Session) -> Option<Session>
        requires { holds session self.old.line ≡ true }
        ensures granted { granted_to result ≡ grants (out_of_line session self.old.line) }
        ensures store { self.new.store ≡ self.old.store }
        ensures state { shared_of self.new ≡ record (shared_of self.old) { line = out_of_line session self.old.line } }
    {
        match self.line.release(session) {
            Ok(next) => next,
            Err(_) => unreachable!(),
        }
    }
}

/// The session is told a refusal, and nothing else happens.
pub fn told_no(session: Session, refusal: Refusal) -> Prepared
    ensures { result ≡ Say (OutTold session (ToldNo refusal)) }
{
    Prepared::Say(Out::Told(session, Told::No(refusal)))
}
