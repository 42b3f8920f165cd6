//! The rows of the book.
ghost use Rattle.std.specs.Prelude.{◌≡◌};

use pad_steps::Classes;
use pad_words::Session;

/// An open session, the events that it hears, and the last id drawn before it.
#[derive(Clone, Copy, Debug, PartialEq, Eq)]
pub struct SessionRow {
    pub session: Session,
    pub classes: Classes,
    pub floor: u32,
}

impl SessionRow {
    ghost use Rattle.session_book.specs.Rising.{opened as opened_row};

    /// The row of a session that was just opened. It listens to nothing.
    pub fn opened(session: Session, floor: u32) -> SessionRow
        ensures { result ≡ opened_row session floor }
    {
        SessionRow {
            session,
            classes: Classes {
                service: false,
                execute: false,
            },
            floor,
        }
    }
}

impl Default for SessionRow {
    /// The session 1, opened before any id was drawn.
    fn default() -> SessionRow {
        SessionRow::opened(Session::default(), 0)
    }
}
