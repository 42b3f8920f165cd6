// Presses at the running entry, and its end by a key. No call takes memory.
ghost use Rattle.std.specs.Prelude.{◌≡◌, ◌≤◌, IsTrue, if◌then◌else◌, length, true};
ghost use Rattle.entry_core.specs.Entries.{is_key_part, is_pin};
ghost use Rattle.entry_core.specs.Presses.{EndsWith, FitEntry, most_digits};
ghost use Rattle.flat_machine.specs.EntrySteps.{entry_answer, part_check};
ghost use Rattle.flat_machine.specs.Kept.{kept_ends, kept_press_in};
ghost use Rattle.flat_machine.specs.Settings.{triple_des};
ghost use Rattle.pad_machine.specs.Does.{Becomes};
ghost use Rattle.pad_machine.specs.Prepares.{IsRunning, KeepsRequests};
ghost use Rattle.pad_machine.specs.Stands.{kept_by, running_of, set_by, shared_of};
ghost use Rattle.secure_entry.specs.PartBuffers.{is_part_length};

use super::Parts;
use crate::running_entry::RunningEntry;
use entry_core::laws::ends_with_enough;
use entry_core::{Entry, Seen};
use key_source::Key;
use pad_steps::{Answer, Completion, EntryKind, Event, Outs, Reply, Shown};
use pin_blocks::PinWork;

impl<W: PinWork + Drop> Parts<W> {
    /// A press at the running entry.
    pub(super) fn press(&mut self, current: RunningEntry, key: Key, out: &mut Outs)
        requires room { 2 ≤ out.old.spare }
        requires runs { IsRunning self.old.common current }
        requires digits { FitEntry current.entry self.old.digits }
        ensures store { self.new.common.store ≡ self.old.common.store }
        ensures becomes { Becomes self.new out.old out.new (kept_press_in (set_by W.rules self.old.seed) (kept_by self.old) (Some (running_of current)) key) }
    {
        ends_with_enough();
        let seen = current.entry.seen(self.digits.items().len(), key);
        current.entry.enter(&mut self.digits, key);
        match seen {
            Seen::Ignored => {}
            Seen::Took(shown) => self
                .shared
                .send(current.owner.session, Event::Key(shown), out),
            Seen::Ended(shown, completion) => self.end_entry(current, shown, completion, out),
        }
    }

    // The running entry ends by a key: what was entered is kept, and its request is answered.
    fn end_entry(
        &mut self,
        current: RunningEntry,
        shown: Shown,
        completion: Completion,
        out: &mut Outs,
    )
        requires room { 2 ≤ out.old.spare }
        requires runs { IsRunning self.old.common current }
        requires digits { FitEntry current.entry self.old.digits }
        requires enough { EndsWith current.entry completion self.old.digits }
        ensures store { self.new.common.store ≡ self.old.common.store }
        ensures becomes { Becomes self.new out.old out.new (kept_ends (set_by W.rules self.old.seed) (kept_by self.old) (running_of current) shown completion self.old.digits) }
    {
        self.shared
            .send(current.owner.session, Event::Key(shown), out);
        self.keep_entered(&current.entry);
        let reply = Reply::Ok(self.entry_answer(&current.entry, completion));
        let told = Reply::Ok(self.entry_answer(&current.entry, completion));
        self.digits.clear();
        self.shared.end(current.owner, reply, told, out);
    }

    // What was entered is kept: a PIN is held, and a key part is put in the part buffer. Data are not kept.
    fn keep_entered(&mut self, entry: &Entry)
        requires most { entry.now.greatest ≤ most_digits entry.now.kind }
        requires digits { FitEntry entry.now self.old.digits }
        requires part { is_key_part entry.now.kind ≡ true → IsTrue (is_part_length (length self.old.digits)) }
        ensures seed { self.new.seed ≡ self.old.seed }
        ensures digits { self.new.digits ≡ self.old.digits }
        ensures held { self.new.held ≡ if is_pin entry.now.kind then self.old.digits else self.old.held }
        ensures state { shared_of self.new.common
            ≡ record (shared_of self.old.common) { part = if is_key_part entry.now.kind then self.old.digits else self.old.common.part } }
        ensures store { self.new.common.store ≡ self.old.common.store }
        ensures queue { KeepsRequests self.old.common self.new.common }
    {
        match entry.kind() {
            EntryKind::Pin => self.held.set(&self.digits),
            EntryKind::Figures => {}
            EntryKind::Part => self.shared.set_part(&self.digits),
        }
    }

    // The answer of an entry that ended: of a PIN and of a key part the number of digits, and of data the digits. That of a
    // key part, which is in the part buffer, has its check value.
    fn entry_answer(&self, entry: &Entry, completion: Completion) -> Answer
        requires { is_key_part entry.now.kind ≡ true → self.now.common.part ≡ self.now.digits }
        ensures { result ≡ entry_answer triple_des entry.now.kind entry.now.check completion self.now.digits }
    {
        let count = self.digits.items().len() as u8;
        match entry.kind() {
            EntryKind::Pin => Answer::Entered(count, completion),
            EntryKind::Figures => Answer::Figures(self.digits.copy(), completion),
            EntryKind::Part => {
                Answer::Part(count, completion, self.shared.part_check(entry.check()))
            }
        }
    }
}
