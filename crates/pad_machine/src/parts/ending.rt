// Close, Unlock, Cancel and Tick. No call takes memory.
ghost use Rattle.std.specs.Prelude.{◌≡◌, ◌<◌, ◌≤◌, ◌+◌, ◌++◌, length, true};
ghost use Rattle.device_lock.specs.LockLine.{holds};
ghost use Rattle.flat_machine.specs.State.{ends};
ghost use Rattle.pad_machine.specs.Does.{Does};
ghost use Rattle.pad_machine.specs.Endings.{cancels, closes, granted_to, is_meant, meant_in, ticks_to, unlocks};
ghost use Rattle.pad_machine.specs.Memory.{pending_in_all};
ghost use Rattle.pad_machine.specs.declared.endings.Ending.TheVariants.{Named};
ghost use Rattle.request_queue.specs.Requests.{pending_count};

use super::Parts;
use crate::endings::Ending;
use crate::saying::say;
use pad_steps::{Out, Outs, Refusal, Told};
use pad_words::Session;
use pin_blocks::PinWork;

impl<W: PinWork + Drop> Parts<W> {
    /// The session's pending requests end CANCELED, it is told closed, and where it held the lock the next is granted it.
    pub(super) fn close(&mut self, session: Session, out: &mut Outs)
        requires room { pending_count session self.old.common.requests + 2 ≤ out.old.spare }
        ensures does { Does self.old self.new out.old out.new (λ shared held. closes session shared) }
        ensures store { self.new.common.store ≡ self.old.common.store }
    {
        let next = self.shared.close(session);
        self.end_requests(&Ending::Of(session), Refusal::Canceled, out);
        say(out, Out::Told(session, Told::Closed));
        grant(next, out);
    }

    /// The session lets go of the lock, and the next is granted it.
    pub(super) fn unlock(&mut self, session: Session, out: &mut Outs)
        requires room { 2 ≤ out.old.spare }
        requires holds { holds session self.old.common.line ≡ true }
        ensures does { Does self.old self.new out.old out.new (λ shared held. unlocks session shared) }
        ensures store { self.new.common.store ≡ self.old.common.store }
    {
        let next = self.shared.unlock(session);
        say(out, Out::Told(session, Told::Released));
        grant(next, out);
    }

    /// The session is told how many requests end, and these end CANCELED.
    pub(super) fn cancel(
        &mut self,
        session: Session,
        floor: u32,
        id: u32,
        count: u16,
        out: &mut Outs,
    )
        requires room { length (meant_in (Named session floor id) self.old.common.requests) + 1 ≤ out.old.spare }
        ensures does { Does self.old self.new out.old out.new (λ shared held. cancels session floor id count shared) }
        ensures store { self.new.common.store ≡ self.old.common.store }
    {
        say(out, Out::Told(session, Told::Canceled(count)));
        self.end_requests(&Ending::Named(session, floor, id), Refusal::Canceled, out);
    }

    /// The clock shows so many ticks, and the requests that are due end TIMEOUT.
    pub(super) fn tick(&mut self, clock: u64, out: &mut Outs)
        requires room { pending_in_all self.old.common.requests ≤ out.old.spare }
        ensures does { Does self.old self.new out.old out.new (λ shared held. ticks_to clock shared) }
        ensures store { self.new.common.store ≡ self.old.common.store }
    {
        self.shared.set_clock(clock);
        self.end_requests(&Ending::Due(clock), Refusal::Timeout, out);
    }

    // The pending requests that are meant end with this refusal. The digits of the running entry go with it.
    fn end_requests(&mut self, ending: &Ending, refusal: Refusal, out: &mut Outs)
        requires room { length (meant_in ending.now self.old.common.requests) ≤ out.old.spare }
        ensures does { Does self.old self.new out.old out.new (λ shared held. ends (is_meant ending.now) refusal shared) }
        ensures store { self.new.common.store ≡ self.old.common.store }
        ensures spare { out.old.spare ≤ out.new.spare + length (meant_in ending.now self.old.common.requests) }
    {
        if self.shared.end_requests(ending, &refusal, out) {
            self.digits.clear();
        }
    }
}

// The session to whom the lock is handed is told that it is granted it.
fn grant(next: Option<Session>, out: &mut Outs)
    requires { 0 < out.old.spare }
    ensures { out.new.items ≡ out.old.items ++ granted_to next }
{
    if let Some(next) = next {
        say(out, Out::Told(next, Told::Granted));
    }
}
