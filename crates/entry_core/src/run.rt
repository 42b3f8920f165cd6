//! An entry that runs, with its digits.
ghost use Rattle.std.specs.Prelude.{◌≡◌, IfErr, IfOk, None, Some, length};
ghost use Rattle.entry_core.specs.Entries.{entry_refusal, is_secret};
ghost use Rattle.entry_core.specs.Presses.{FitEntry, after_press, press_seen, refusal_of};
ghost use Rattle.entry_core.specs.Runs.{begun};

use crate::{Entry, EntryFault, Seen};
use key_source::Key;
use pad_words::Nibbles;
use std::marker::Model;

/// An entry that runs: its rules, and the digits that stand.
#[derive(Drop)]
pub struct EntryRun {
    entry: Entry,
    digits: Nibbles,
}

impl Model for EntryRun {
    ghost use Rattle.entry_core.specs.Presses.{FitEntry};
    ghost use Rattle.entry_core.specs.Runs.{Run};

    ghost Value = { Run };

    ghost view = { λ r. record { entry = r.entry; digits = r.digits } };

    ghost invariant = { λ r. FitEntry r.entry r.digits };
}

impl EntryRun {
    /// Starts the entry, with no digit, or tells why it is refused.
    pub fn start(entry: Entry) -> Result<EntryRun, EntryFault>
        ensures started { IfOk result (λ run. (entry_refusal entry ≡ None) × (run ≡ begun entry)) }
        ensures refused { IfErr result (λ fault. entry_refusal entry ≡ Some (refusal_of fault)) }
    {
        match entry.refusal() {
            Some(fault) => Err(fault),
            None => Ok(EntryRun {
                entry,
                digits: Nibbles::empty(),
            }),
        }
    }

    /// Takes a press, and tells what it does.
    pub fn press(&mut self, key: Key) -> Seen
        ensures entry { self.new.entry ≡ self.old.entry }
        ensures digits { self.new.digits ≡ after_press self.old.entry key self.old.digits }
        ensures seen { result ≡ press_seen self.old.entry (length self.old.digits) key }
    {
        let seen = self.entry.seen(self.digits.items().len(), key);
        self.entry.enter(&mut self.digits, key);
        seen
    }

    /// The digits that stand: no more than the entry takes, and each a digit of its kind.
    pub fn digits(&self) -> &Nibbles
        ensures digits { result.now ≡ self.now.digits }
        ensures fit { FitEntry self.now.entry result.now }
    {
        &self.digits
    }

    /// The rules of the entry.
    pub fn entry(&self) -> &Entry
        ensures { result.now ≡ self.now.entry }
    {
        &self.entry
    }

    /// Whether the key is an active digit of a PIN. Nothing shows such a key.
    pub fn is_masked(&self, key: Key) -> bool
        ensures { result ≡ is_secret self.now.entry key }
    {
        self.entry.is_masked(key)
    }
}
