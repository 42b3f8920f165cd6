//! A history that was kept.
ghost use Rattle.std.specs.Prelude.{◌≡◌, []};

use crate::machine::Entry;
use std::alloc::Global;
use std::marker::Model;

/// Operations with their outcomes, in the order in which they were entered.
#[derive(Drop)]
pub struct History<O, R> {
    entries: Vec<Entry<O, R>>,
}

impl<O, R> Model for History<O, R> {
    ghost use Rattle.std.specs.Prelude.{List};
    ghost use Rattle.turnstile.specs.declared.machine.Entry.{Entry};

    ghost Value = { List (Entry O R) };

    ghost view = { λ h. h.entries.items };
}

impl<O: Drop, R: Drop> History<O, R> {
    /// No entries. It takes no memory.
    pub fn empty(alloc: Global) -> History<O, R>
        ensures { result ≡ [] }
    {
        History {
            entries: Vec::new(alloc),
        }
    }

    /// These entries.
    pub(crate) fn of(entries: Vec<Entry<O, R>>) -> History<O, R>
        ensures { result ≡ entries.items }
    {
        History { entries }
    }

    /// The entries in order.
    pub fn items(&self) -> &[Entry<O, R>]
        ensures { result.now ≡ self.now }
    {
        self.entries.as_slice()
    }
}
