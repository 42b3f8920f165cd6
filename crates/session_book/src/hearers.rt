//! The sessions that hear an event.
ghost use Rattle.std.specs.Prelude.{◌≡◌, ◌<◌, ◌≤◌, ◌++◌, ◌∷◌, [], length};

use arrayvec::ArrayVec;
use pad_words::Session;
use std::marker::Model;

/// At most sixteen sessions.
#[derive(Drop)]
pub struct Hearers {
    sessions: ArrayVec<Session, 16>,
}

impl Model for Hearers {
    ghost use Rattle.std.specs.Prelude.{List};
    ghost use Rattle.pad_words.specs.declared.numbers.Session.{Session};

    ghost Value = { List Session };

    ghost view = { λ h. h.sessions.items };
}

impl Hearers {
    /// The sessions in order.
    pub fn items(&self) -> &[Session]
        ensures items { result.now ≡ self.now }
        ensures few { length result.now ≤ 16 }
    {
        self.sessions.as_slice()
    }

    // no session
    pub(crate) fn none() -> Hearers
        ensures { result ≡ [] }
    {
        Hearers {
            sessions: ArrayVec::new(),
        }
    }

    // puts a session at the end
    pub(crate) fn push(&mut self, session: Session)
        requires { length self.old < 16 }
        ensures { self.new ≡ self.old ++ session ∷ [] }
    {
        self.sessions.push(session);
    }
}
