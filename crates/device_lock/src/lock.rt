//! The lock of the device, and the line for it.
ghost use Rattle.std.specs.Prelude.{◌≡◌, ◌≤◌, ◌↔◌, [], IfOk, IsOk, IsTrue, OnErr, length};
ghost use Rattle.std.specs.List.{IsDistinct, list_any};
ghost use Rattle.pad_words.specs.Numbers.{same_session};
ghost use Rattle.device_lock.specs.LockAnswers.{answer_of, granted_after};
ghost use Rattle.device_lock.specs.LockLine.{holder_of, holds, in_line, locked_out, out_of_line};

use crate::{LockAnswer, NotLocked};
use arrayvec::ArrayVec;
use pad_words::Session;
use std::marker::Model;

/// The lock of the device: the sessions in the line for it. The first holds the lock, the others wait in that order.
/// No session stands in the line twice.
#[derive(Drop)]
pub struct Lock {
    line: ArrayVec<Session, 16>,
}

impl Model for Lock {
    ghost use Rattle.std.specs.Prelude.{List};
    ghost use Rattle.std.specs.List.{IsDistinct};
    ghost use Rattle.pad_words.specs.declared.numbers.Session.{Session};
    ghost use Rattle.pad_words.specs.Numbers.{same_session};

    ghost Value = { List Session };

    ghost view = { λ l. l.line.items };

    ghost invariant = { λ l. IsDistinct same_session l.line.items };
}

impl Lock {
    /// A lock that no session holds.
    pub fn free() -> Lock
        ensures { result ≡ [] }
    {
        Lock {
            line: ArrayVec::new(),
        }
    }

    /// The sessions in the line, in order: at most sixteen, and each once.
    pub fn items(&self) -> &[Session]
        ensures items { result.now ≡ self.now }
        ensures apart { IsDistinct same_session result.now }
        ensures few { length result.now ≤ 16 }
    {
        self.line.as_slice()
    }

    /// The session that holds the lock, if one does.
    pub fn holder(&self) -> Option<Session>
        ensures { result ≡ holder_of self.now }
    {
        self.items().first().copied()
    }

    /// Whether the session holds the lock.
    pub fn holds(&self, session: Session) -> bool
        ensures { result ≡ holds session self.now }
    {
        match self.holder() {
            Some(holder) => holder.number == session.number,
            None => false,
        }
    }

    /// The session that holds the lock, where it is another than this one.
    pub fn locked_out(&self, session: Session) -> Option<Session>
        ensures { result ≡ locked_out session self.now }
    {
        match self.holder() {
            Some(holder) if holder.number != session.number => Some(holder),
            _ => None,
        }
    }

    /// Puts the session at the end of the line, if it is not in it, and tells whether it holds the lock.
    pub fn ask(&mut self, session: Session) -> LockAnswer
        ensures line { self.new ≡ in_line session self.old }
        ensures answer { result ≡ answer_of (locked_out session self.old) }
    {
        let holder = self.locked_out(session);
        if !self.has(session) {
            self.line.push(session);
        }
        match holder {
            Some(holder) => LockAnswer::Waiting(holder),
            None => LockAnswer::Granted,
        }
    }

    /// Lets go of the lock, and tells which session is granted it. Refused, with nothing changed, exactly where the
    /// session does not hold it.
    pub fn release(&mut self, session: Session) -> Result<Option<Session>, NotLocked>
        ensures held { IsOk result ↔ IsTrue (holds session self.old) }
        ensures line { IfOk result (λ _. self.new ≡ out_of_line session self.old) }
        ensures granted { IfOk result (λ next. next ≡ holder_of self.new) }
        ensures refused { OnErr result (self.new ≡ self.old) }
    {
        if !self.holds(session) {
            return Err(NotLocked);
        }
        self.take_out(session);
        Ok(self.holder())
    }

    /// Takes the session out of the line, and tells which session is granted the lock, if this one held it.
    pub fn leave(&mut self, session: Session) -> Option<Session>
        ensures line { self.new ≡ out_of_line session self.old }
        ensures granted { result ≡ granted_after session self.old }
    {
        let held = self.holds(session);
        self.take_out(session);
        if held { self.holder() } else { None }
    }

    // whether the session stands in the line
    fn has(&self, session: Session) -> bool
        ensures { result ≡ list_any (λ other. same_session other session) self.now }
    {
        self.items()
            .iter()
            .any(|other| other.number == session.number)
    }

    // takes the session out of the line
    fn take_out(&mut self, session: Session)
        ensures { self.new ≡ out_of_line session self.old }
    {
        self.line.retain(|other| other.number != session.number);
    }
}
