// Cancel and Tick, and the requests that end by them.
ghost use Rattle.std.specs.Prelude.{◌≡◌, ◌≤◌, ◌+◌, ◌++◌, IfOk, IsOk, false, length};
ghost use Rattle.flat_machine.specs.RequestSteps.{next_cancel, next_tick};
ghost use Rattle.flat_machine.specs.State.{ends, work_ends};
ghost use Rattle.pad_machine.specs.Endings.{is_meant, meant_in};
ghost use Rattle.pad_machine.specs.Memory.{places_for, takes_memory};
ghost use Rattle.pad_machine.specs.Prepares.{AlwaysComesTo, IsPlanned, Prepares, deciding};
ghost use Rattle.pad_machine.specs.Stands.{shared_of};
ghost use Rattle.pad_steps.specs.declared.steps.Step.TheVariants.{Cancel as CancelStep, Tick as TickStep};
ghost use Rattle.request_queue.specs.Requests.{request_in_work};

use super::Shared;
use super::sessions::told_no;
use crate::endings::{Ending, count_named, end_requests};
use crate::prepared::Prepared;
use pad_steps::{Outs, Refusal};
use pad_words::{NoMemory, Session};
use pin_blocks::PinWork;

impl<W: PinWork + Drop> Shared<W> {
    // What Cancel comes to.
    pub(super) fn prepare_cancel(
        &self,
        session: Session,
        id: u32,
        out: &mut Outs,
    ) -> Result<Prepared, NoMemory>
        ensures ready { Prepares W.rules self.now self.now out.old out.new result }
        ensures does { IfOk result (AlwaysComesTo W.rules self.now (λ shared word. next_cancel shared session id)) }
        ensures planned { IfOk result (λ prepared.
            IsPlanned (deciding W.rules) (shared_of self.now) prepared (CancelStep session id)) }
        ensures memory { places_for (shared_of self.now) (CancelStep session id) ≤ out.old.spare → IsOk result }
    {
        let Some(floor) = self.sessions.floor(session) else {
            out.reserve(1)?;
            return Ok(told_no(session, Refusal::NoSession));
        };
        let count = count_named(&self.requests, session, floor, id);
        out.reserve(usize::from(count) + 1)?;
        if id != 0 && count == 0 {
            return Ok(told_no(session, Refusal::InvalidReqId));
        }
        Ok(Prepared::Cancel(session, floor, id, count))
    }

    // What Tick comes to. There is no memory for a clock that 64 bits do not hold.
    pub(super) fn prepare_tick(&self, ticks: u32, out: &mut Outs) -> Result<Prepared, NoMemory>
        ensures ready { Prepares W.rules self.now self.now out.old out.new result }
        ensures does { IfOk result (AlwaysComesTo W.rules self.now (λ shared word. next_tick shared ticks)) }
        ensures planned { IfOk result (λ prepared.
            IsPlanned (deciding W.rules) (shared_of self.now) prepared (TickStep ticks)) }
        ensures memory { takes_memory (shared_of self.now) (TickStep ticks) ≡ false →
            places_for (shared_of self.now) (TickStep ticks) ≤ out.old.spare → IsOk result }
    {
        out.reserve(self.pending_in_all())?;
        match self.clock.checked_add(u64::from(ticks)) {
            Some(clock) => Ok(Prepared::Tick(clock)),
            None => Err(NoMemory),
        }
    }

    /// The clock shows so many ticks.
    pub fn set_clock(&mut self, clock: u64)
        ensures store { self.new.store ≡ self.old.store }
        ensures state { shared_of self.new ≡ record (shared_of self.old) { clock = clock } }
    {
        self.clock = clock;
    }

    /// The pending requests that are meant end with this refusal, in order of ids, and each is told so. Whether the request
    /// in work is one of them.
    pub fn end_requests(&mut self, ending: &Ending, refusal: &Refusal, out: &mut Outs) -> bool
        requires room { length (meant_in ending.now self.old.requests) ≤ out.old.spare }
        ensures work { result ≡ work_ends (is_meant ending.now) (request_in_work self.old.requests) }
        ensures store { self.new.store ≡ self.old.store }
        ensures state { shared_of self.new ≡ (ends (is_meant ending.now) refusal.now (shared_of self.old)).shared }
        ensures items { out.new.items ≡ out.old.items ++ (ends (is_meant ending.now) refusal.now (shared_of self.old)).outs }
        ensures spare { out.old.spare ≤ out.new.spare + length (meant_in ending.now self.old.requests) }
    {
        let had_work = self.requests.in_work().is_some();
        end_requests(&mut self.requests, ending, refusal, out);
        had_work && self.requests.in_work().is_none()
    }
}
