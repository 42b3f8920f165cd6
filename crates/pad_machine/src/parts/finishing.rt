// Begin of an entry, and Finish: what was decided is performed. No call takes memory.
ghost use Rattle.std.specs.Prelude.{◌≡◌, ◌<◌, ◌≤◌, ◌+◌, ◌∷◌, [], ℕ, IsTrue, List, None, Ok, Some, length, map, max, true};
ghost use Rattle.std.specs.List.{range_with_len};
ghost use Rattle.std.specs.Option.{option_copied, option_map};
ghost use Rattle.flat_machine.specs.DiskFacts.{IsKeptStore, KeepsStore, stays};
ghost use Rattle.flat_machine.specs.FinishSteps.{performs, plan_of};
ghost use Rattle.flat_machine.specs.Power.{Nothing, powers_off, word_fate};
ghost use Rattle.flat_machine.specs.State.{is_ready, refuses, replies};
ghost use Rattle.flat_machine.specs.declared.types.Work.TheVariants.{Erase, EraseAll, Keep, Release};
ghost use Rattle.key_table.specs.Changes.{change_to, erasure, erasures};
ghost use Rattle.key_table.specs.KeyRows.{slot_for, slot_of};
ghost use Rattle.pad_machine.specs.Does.{Does};
ghost use Rattle.pad_machine.specs.Memory.{pending_in_all};
ghost use Rattle.pad_machine.specs.Prepares.{IsDecided, IsInWork, IsNext, said_of};
ghost use Rattle.pad_machine.specs.Replacing.{MadeChanges, ends_struck};
ghost use Rattle.pad_machine.specs.Stands.{DrawnFew, set_by, shared_of};
ghost use Rattle.pad_machine.specs.declared.prepared.Prepared.TheVariants.{StartEntry};
ghost use Rattle.pad_steps.specs.Formed.{is_pin_request};
ghost use Rattle.pad_steps.specs.declared.steps.DiskWord.TheVariants.{Quiet};
ghost use Rattle.flat_machine.specs.Arms.{is_struck};
ghost use Rattle.pin_blocks.specs.FillWords.{fill_word};
ghost use Rattle.std.specs.Bool.{OnFalse};

use super::Parts;
use crate::pad::Stepped;
use crate::pins::pin_reply;
use disk_core::PowerDisk;
use flat_machine::laws::devices::{device_steps_are_on_disk, quiet_steps_leave_the_disk};
use flat_machine::laws::works::works_of_commands;
use flat_machine::types::{Owner, Work};
use key_attributes::{KeyRow, KeyValue};
use pad_steps::{Answer, DiskWord, EntryKind, Event, Outs, PinRequest, Refusal, Reply};
use pad_words::KeyName;
use pin_blocks::{PinAnswer, PinWork, fill_words};

impl<W: PinWork + Drop> Parts<W> {
    /// The next request comes into work, and its entry starts: what it will fill is empty.
    pub(super) fn start_entry(&mut self, owner: Owner, kind: EntryKind, out: &mut Outs)
        requires room { 1 ≤ out.old.spare }
        requires next { IsNext self.old.common owner.id }
        ensures does { Does self.old self.new out.old out.new (λ shared held. said_of (set_by W.rules self.old.seed) (StartEntry owner kind) shared held Quiet) }
        ensures store { self.new.common.store ≡ self.old.common.store }
    {
        self.shared.begin(owner.id);
        self.digits.clear();
        match kind {
            EntryKind::Pin => self.held.clear(),
            EntryKind::Part => self.shared.clear_part(),
            EntryKind::Figures => {}
        }
        self.shared.send(owner.session, Event::EnterData, out);
    }

    /// Does what the command in work came to.
    pub(super) fn finish<D: PowerDisk>(
        &mut self,
        disk: &mut D,
        owner: Owner,
        work: Work,
        told: Option<Answer>,
        out: &mut Outs,
    ) -> Stepped
        requires room { max (length self.old.common.sessions + 1) (pending_in_all self.old.common.requests) ≤ out.old.spare }
        requires decided { IsDecided W.rules self.old.common (length self.old.held) owner work told }
        requires drawn { DrawnFew self.old.common }
        requires kept { IsKeptStore (shared_of self.old.common) self.old.common.store (D.state disk.old) }
        ensures does { Does self.old self.new out.old out.new (λ shared held. performs (set_by W.rules self.old.seed) shared held owner work result.word) }
        ensures device { KeepsStore (shared_of self.old.common) (shared_of self.new.common) stays
            (plan_of (shared_of self.old.common) work) result.word self.new.common.store (D.state disk.old) (D.state disk.new) }
        ensures fate { result.fate ≡ word_fate (shared_of self.old.common) result.word }
    {
        works_of_commands();
        device_steps_are_on_disk::<D>();
        quiet_steps_leave_the_disk::<D>();
        match work {
            Work::Keep {
                slot,
                row,
                check,
                from_part,
            } => fateless(self.keep(disk, owner, slot, row, check, from_part, out)),
            Work::Erase(slot) => fateless(self.erase(disk, owner, slot, out)),
            Work::EraseAll => fateless(self.erase_all(disk, owner, out)),
            work => {
                self.finish_quietly(owner, work, told, out);
                fateless(DiskWord::Quiet)
            }
        }
    }

    // The row is kept in the slot of its name, and its check value is answered. An import from the part buffer leaves it empty.
    fn keep<D: PowerDisk>(
        &mut self,
        disk: &mut D,
        owner: Owner,
        slot: u8,
        row: KeyRow,
        check: Option<[u8; 3]>,
        from_part: bool,
        out: &mut Outs,
    ) -> DiskWord
        requires room { max (length self.old.common.sessions + 1) (pending_in_all self.old.common.requests) ≤ out.old.spare }
        requires at { IsInWork self.old.common.requests owner.id }
        requires slot { slot_for row.name self.old.common.store.rows ≡ Some slot }
        requires ready { is_ready self.old.common.device ≡ true }
        requires kept { IsKeptStore (shared_of self.old.common) self.old.common.store (D.state disk.old) }
        ensures does { Does self.old self.new out.old out.new (λ shared held.
            performs (set_by W.rules self.old.seed) shared held owner (Keep slot row check from_part) result) }
        ensures made { MadeChanges (change_to (slot, row) ∷ []) result self.old.common.store self.new.common.store (D.state disk.old) (D.state disk.new) }
    {
        let word = self.shared.keep(disk, slot, &row);
        if !self.end_struck(owner, &word, out) {
            if from_part {
                self.shared.clear_part();
            }
            let (reply, told) = (Reply::Ok(Answer::Key(check)), Reply::Ok(Answer::Key(check)));
            self.end(owner, reply, told, out);
        }
        word
    }

    // The slot is emptied.
    fn erase<D: PowerDisk>(
        &mut self,
        disk: &mut D,
        owner: Owner,
        slot: u8,
        out: &mut Outs,
    ) -> DiskWord
        requires room { max (length self.old.common.sessions + 1) (pending_in_all self.old.common.requests) ≤ out.old.spare }
        requires at { IsInWork self.old.common.requests owner.id }
        requires named { (name : List ℕ) × (slot_of name self.old.common.store.rows ≡ Some slot) }
        requires ready { is_ready self.old.common.device ≡ true }
        requires kept { IsKeptStore (shared_of self.old.common) self.old.common.store (D.state disk.old) }
        ensures does { Does self.old self.new out.old out.new (λ shared held.
            performs (set_by W.rules self.old.seed) shared held owner (Erase slot) result) }
        ensures made { MadeChanges (erasure slot ∷ []) result self.old.common.store self.new.common.store (D.state disk.old) (D.state disk.new) }
    {
        let word = self.shared.erase(disk, slot);
        if !self.end_struck(owner, &word, out) {
            self.end(owner, Reply::Ok(Answer::Done), Reply::Ok(Answer::Done), out);
        }
        word
    }

    // All slots are emptied. Where that is done, the held PIN and the part buffer are cleared, and service listeners hear of it.
    fn erase_all<D: PowerDisk>(&mut self, disk: &mut D, owner: Owner, out: &mut Outs) -> DiskWord
        requires room { max (length self.old.common.sessions + 1) (pending_in_all self.old.common.requests) ≤ out.old.spare }
        requires at { IsInWork self.old.common.requests owner.id }
        requires ready { is_ready self.old.common.device ≡ true }
        requires kept { IsKeptStore (shared_of self.old.common) self.old.common.store (D.state disk.old) }
        ensures does { Does self.old self.new out.old out.new (λ shared held.
            performs (set_by W.rules self.old.seed) shared held owner EraseAll result) }
        ensures made { MadeChanges (erasures self.old.common.store.rows) result self.old.common.store self.new.common.store (D.state disk.old) (D.state disk.new) }
    {
        let word = self.shared.erase_all(disk);
        if !self.end_struck(owner, &word, out) {
            self.held.clear();
            self.shared.clear_part();
            self.end(owner, Reply::Ok(Answer::Done), Reply::Ok(Answer::Done), out);
            self.shared.tell_initialized(out);
        }
        word
    }

    // A fault ends the request in work HARDWAREERROR, and a cut ends all. False where the word is of neither.
    fn end_struck(&mut self, owner: Owner, word: &DiskWord, out: &mut Outs) -> bool
        requires room { max (length self.old.common.sessions + 1) (pending_in_all self.old.common.requests) ≤ out.old.spare }
        requires at { IsInWork self.old.common.requests owner.id }
        ensures struck { result ≡ is_struck word.now }
        ensures does { Does self.old self.new out.old out.new (λ shared held. ends_struck owner word.now shared) }
        ensures store { self.new.common.store ≡ self.old.common.store }
        ensures spared { OnFalse result ((self.new ≡ self.old) × (out.new ≡ out.old)) }
    {
        match word {
            DiskWord::Failed(_) => {
                let (reply, told) = (
                    Reply::No(Refusal::HardwareError),
                    Reply::No(Refusal::HardwareError),
                );
                self.end(owner, reply, told, out);
                true
            }
            DiskWord::Cut(_) => {
                self.power_off(out);
                true
            }
            _ => false,
        }
    }

    // The power goes: what is held and pressed is gone, and every pending request ends.
    pub(super) fn power_off(&mut self, out: &mut Outs)
        requires room { pending_in_all self.old.common.requests ≤ out.old.spare }
        ensures does { Does self.old self.new out.old out.new (λ shared held. powers_off shared) }
        ensures store { self.new.common.store ≡ self.old.common.store }
    {
        self.held.clear();
        if self.shared.has_work() {
            self.digits.clear();
        }
        self.shared.power_off(out);
    }

    // Does what a command came to that calls no disk.
    fn finish_quietly(&mut self, owner: Owner, work: Work, told: Option<Answer>, out: &mut Outs)
        requires room { length self.old.common.sessions + 1 ≤ out.old.spare }
        requires decided { IsDecided W.rules self.old.common (length self.old.held) owner work told }
        requires quiet { plan_of (shared_of self.old.common) work ≡ Nothing }
        requires drawn { DrawnFew self.old.common }
        ensures does { Does self.old self.new out.old out.new (λ shared held. performs (set_by W.rules self.old.seed) shared held owner work Quiet) }
        ensures store { self.new.common.store ≡ self.old.common.store }
    {
        works_of_commands();
        match work {
            Work::Waits => {}
            Work::Refuse { refusal, accused } => self.refuse(owner, refusal, accused, out),
            Work::Answer(answer) => match told {
                Some(told) => self.end(owner, Reply::Ok(answer), Reply::Ok(told), out),
                None => unreachable!(),
            },
            Work::Maintain(on) => {
                self.shared.maintain(on);
                if !on {
                    self.held.clear();
                }
                self.end(owner, Reply::Ok(Answer::Done), Reply::Ok(Answer::Done), out);
            }
            Work::Release {
                request,
                first,
                second,
                draws,
            } => self.release(owner, &request, &first, second.as_ref(), draws, out),
            // These call the disk.
            Work::Keep { .. } | Work::Erase(_) | Work::EraseAll | Work::Load => unreachable!(),
        }
    }

    // The PIN work answers, and has drawn its fill words. A used PIN is dropped unless it is maintained.
    fn release(
        &mut self,
        owner: Owner,
        request: &PinRequest,
        first: &KeyValue,
        second: Option<&KeyValue>,
        draws: u8,
        out: &mut Outs,
    )
        requires room { 0 < out.old.spare }
        requires at { IsInWork self.old.common.requests owner.id }
        requires formed { IsTrue (is_pin_request request.now) }
        requires admitted { W.rules.admit request.now ≡ None }
        requires ready { W.rules.ready request.now (length self.old.held) (length first.now) (option_map length (option_copied second))
            ≡ Ok draws }
        requires drawn { DrawnFew self.old.common }
        ensures does { Does self.old self.new out.old out.new (λ shared held.
            performs (set_by W.rules self.old.seed) shared held owner (Release request.now first.now (option_copied second.entry) draws) Quiet) }
        ensures store { self.new.common.store ≡ self.old.common.store }
    {
        let answer = self.released(request, first, second, draws);
        self.shared.draw(draws);
        if !self.shared.is_maintained() {
            self.held.clear();
        }
        let (reply, told) = (Reply::Ok(pin_reply(answer)), Reply::Ok(pin_reply(answer)));
        self.end(owner, reply, told, out);
    }

    // What the request releases of the held PIN, with the next fill words.
    fn released(
        &self,
        request: &PinRequest,
        first: &KeyValue,
        second: Option<&KeyValue>,
        draws: u8,
    ) -> PinAnswer
        requires formed { IsTrue (is_pin_request request.now) }
        requires admitted { W.rules.admit request.now ≡ None }
        requires ready { W.rules.ready request.now (length self.now.held) (length first.now) (option_map length (option_copied second))
            ≡ Ok draws }
        ensures { result ≡ W.rules.result request.now self.now.held first.now (option_copied second.entry)
            (map (fill_word self.now.seed) (range_with_len self.now.common.drawn draws)) }
    {
        let mut words = [0; 255];
        let fill = &mut words[..usize::from(draws)];
        fill_words(&self.seed, self.shared.drawn(), fill);
        self.shared
            .work()
            .result(request, self.held.digits(), first, second, fill)
    }

    // The request in work ends with this reply, which is told, and no press is left.
    pub(super) fn end(&mut self, owner: Owner, reply: Reply, told: Reply, out: &mut Outs)
        requires room { 0 < out.old.spare }
        requires at { IsInWork self.old.common.requests owner.id }
        requires same { told ≡ reply }
        ensures does { Does self.old self.new out.old out.new (λ shared held. replies shared owner reply) }
        ensures store { self.new.common.store ≡ self.old.common.store }
        ensures sessions { self.new.common.sessions ≡ self.old.common.sessions }
        ensures spare { out.old.spare ≤ out.new.spare + 1 }
    {
        self.shared.end(owner, reply, told, out);
        self.digits.clear();
    }

    // The request in work ends with this refusal, and service listeners hear of the key that it accuses.
    fn refuse(&mut self, owner: Owner, refusal: Refusal, accused: Option<KeyName>, out: &mut Outs)
        requires room { length self.old.common.sessions + 1 ≤ out.old.spare }
        requires at { IsInWork self.old.common.requests owner.id }
        ensures does { Does self.old self.new out.old out.new (λ shared held. refuses shared owner refusal accused) }
        ensures store { self.new.common.store ≡ self.old.common.store }
    {
        let (reply, told) = (Reply::No(refusal.copy()), Reply::No(refusal.copy()));
        self.end(owner, reply, told, out);
        self.shared.accuse(refusal, accused, out);
    }
}

// What a step came to that loaded nothing.
fn fateless(word: DiskWord) -> Stepped
    ensures word { result.word ≡ word }
    ensures fate { result.fate ≡ None }
{
    Stepped { word, fate: None }
}
