//! The open sessions, in rising order.
ghost use Rattle.std.specs.Prelude.{◌≡◌, ◌≤◌, [], IfSome, find, is_some, length, not};
ghost use Rattle.std.specs.Bool.{OnFalse, OnTrue};
ghost use Rattle.std.specs.List.Sorted.{IsStrictlyIncreasing};
ghost use Rattle.std.specs.Option.{option_copied};
ghost use Rattle.pad_words.specs.Numbers.{same_session};
ghost use Rattle.session_book.specs.Places.{place_above};
ghost use Rattle.session_book.specs.Rising.{numbers_of, opened, session_numbers};
ghost use Rattle.session_book.specs.Sessions.{floor_of, has_class, hearers, hears, is_open, listening, with_classes, with_session, without_session};

use crate::{Hearers, SessionRow};
use arrayvec::ArrayVec;
use pad_steps::{Class, Classes};
use pad_words::Session;
use std::marker::Model;

/// The open sessions: a row each, in rising order, so at most sixteen.
#[derive(Drop)]
pub struct Book {
    rows: ArrayVec<SessionRow, 16>,
}

impl Model for Book {
    ghost use Rattle.std.specs.Prelude.{List};
    ghost use Rattle.session_book.specs.declared.sessions.SessionRow.{SessionRow};
    ghost use Rattle.session_book.specs.Rising.{Rising};

    ghost Value = { List SessionRow };

    ghost view = { λ b. b.rows.items };

    ghost invariant = { λ b. Rising b.rows.items };
}

impl Book {
    /// No open session.
    pub fn empty() -> Book
        ensures { result ≡ [] }
    {
        Book {
            rows: ArrayVec::new(),
        }
    }

    /// The rows of the open sessions, in rising order.
    pub fn rows(&self) -> &[SessionRow]
        ensures rows { result.now ≡ self.now }
        ensures rising { IsStrictlyIncreasing (session_numbers result.now) }
        ensures few { length result.now ≤ 16 }
    {
        self.rows.as_slice()
    }

    /// The number of open sessions.
    pub fn len(&self) -> usize
        ensures value { result ≡ length self.now }
        ensures few { result ≤ 16 }
    {
        self.rows.len()
    }

    /// Whether the session is open.
    pub fn is_open(&self, session: Session) -> bool
        ensures { result ≡ is_open session self.now }
    {
        self.rows()
            .iter()
            .any(|row| row.session.number == session.number)
    }

    /// Opens the session, which listens to nothing. False, with nothing changed, where it is open.
    pub fn enter(&mut self, session: Session, floor: u32) -> bool
        ensures fresh { result ≡ not (is_open session self.old) }
        ensures entered { OnTrue result (self.new ≡ with_session (opened session floor) self.old) }
        ensures refused { OnFalse result (self.new ≡ self.old) }
    {
        if self.is_open(session) {
            return false;
        }
        let place = place_above(self.rows(), session);
        self.rows.insert(place, SessionRow::opened(session, floor));
        true
    }

    /// Closes the session. False, with nothing changed, where it is not open.
    pub fn depart(&mut self, session: Session) -> bool
        ensures open { result ≡ is_open session self.old }
        ensures rows { self.new ≡ without_session session self.old }
    {
        let was_open = self.is_open(session);
        self.rows.retain(|row| row.session.number != session.number);
        was_open
    }

    /// Sets the events that the session listens to. False, with nothing changed, where it is not open.
    pub fn listen(&mut self, session: Session, classes: Classes) -> bool
        ensures open { result ≡ is_open session self.old }
        ensures rows { self.new ≡ with_classes session classes self.old }
    {
        let is_open = self.is_open(session);
        set_classes(self.rows.as_mut_slice(), session, classes);
        is_open
    }

    /// The session's floor: the last id drawn before it was opened. None where it is not open.
    pub fn floor(&self, session: Session) -> Option<u32>
        ensures open { is_some result ≡ is_open session self.now }
        ensures value { IfSome result (λ floor. floor ≡ floor_of session self.now) }
    {
        match row_of(self.rows(), session) {
            Some(row) => Some(row.floor),
            None => None,
        }
    }

    /// Whether the session is open and listens to events of this class.
    pub fn hears(&self, session: Session, class: Class) -> bool
        ensures { result ≡ hears session class self.now }
    {
        self.rows().iter().any(|row| row.session.number == session.number
            && has_class(row.classes, class))
    }

    /// The open sessions that listen to events of this class, in rising order.
    pub fn hearers(&self, class: Class) -> Hearers
        ensures sessions { result ≡ hearers class self.now }
        ensures rising { IsStrictlyIncreasing (numbers_of result) }
    {
        hearers_among(self.rows.as_slice(), class)
    }
}

// the row of the session, if it is open
fn row_of(rows: &[SessionRow], session: Session) -> Option<&SessionRow>
    ensures { option_copied result ≡ find (λ row. same_session row.session session) rows.now }
{
    rows.iter().find(|row| row.session.number == session.number)
}

// the place of the first session above this one
fn place_above(rows: &[SessionRow], session: Session) -> usize
    ensures within { result ≤ length rows.now }
    ensures place { result ≡ place_above session rows.now }
{
    let mut place = 0;
    while place < rows.len() && rows[place].session.number <= session.number {
        place += 1;
    }
    place
}

// sets the classes of the session
fn set_classes(rows: &mut [SessionRow], session: Session, classes: Classes)
    ensures { rows.new ≡ with_classes session classes rows.old }
{
    for row in rows.iter_mut() {
        *row = listening(*row, session, classes);
    }
}

// the row with these classes, if it is of this session
fn listening(row: SessionRow, session: Session, classes: Classes) -> SessionRow
    ensures { result ≡ listening session classes row }
{
    if row.session.number == session.number {
        SessionRow {
            session: row.session,
            classes,
            floor: row.floor,
        }
    } else {
        row
    }
}

// whether the classes have this one
fn has_class(classes: Classes, class: Class) -> bool
    ensures { result ≡ has_class class classes }
{
    match class {
        Class::Service => classes.service,
        Class::Execute => classes.execute,
    }
}

// the sessions among the rows that listen to events of this class
fn hearers_among(rows: &[SessionRow], class: Class) -> Hearers
    requires { length rows.now ≤ 16 }
    ensures { result ≡ hearers class rows.now }
{
    let mut found = Hearers::none();
    for row in rows {
        if has_class(row.classes, class) {
            found.push(row.session);
        }
    }
    found
}
