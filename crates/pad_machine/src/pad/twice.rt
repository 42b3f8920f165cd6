// A step that is told twice.
ghost use Rattle.std.specs.Prelude.{◌≡◌, ◌<◌, ◌≤◌, ◌+◌, ◌-◌, ◌^◌, IfOk, IsOk, IsTrue, OnErr, OnOk, Some, false, length};
ghost use Rattle.flat_machine.specs.Machine.{next_work};
ghost use Rattle.flat_machine.specs.RequestFacts.{draws, work_left};
ghost use Rattle.flat_machine.specs.State.{is_off};
ghost use Rattle.pad_machine.specs.Does.{Undone};
ghost use Rattle.pad_machine.specs.Memory.{places_for, takes_memory};
ghost use Rattle.pad_machine.specs.Runs.{IsPadStep, PadIsTied};
ghost use Rattle.pad_machine.specs.Twice.{SayAlike, answer_out, known_out, rows_room};
ghost use Rattle.pad_machine.specs.TwiceSteps.{IsToldTwice};
ghost use Rattle.pad_steps.specs.Formed.{is_well_formed};
ghost use Rattle.pad_steps.specs.declared.steps.Step.TheVariants.{Finish};

use super::{Pad, Stepped};
use crate::copies::{copy_word, say_again};
use crate::keyless::without_key;
use crate::prepared::Prepared;
use crypt_commands::CryptDone;
use disk_core::PowerDisk;
use flat_machine::laws::works::works_of_commands;
use flat_machine::types::{Owner, Work};
use key_attributes::KeyRow;
use pad_steps::{Out, Outs, Reply, Step};
use pad_words::NoMemory;
use pin_blocks::PinWork;

// What a step is told with once more, without memory: its out, where that is known before the step is done, and room for the
// rows that it loads.
#[derive(Drop)]
struct Spare {
    out: Option<Out>,
    rows: Option<Vec<(u8, KeyRow)>>,
}

impl<W: PinWork + Drop> Pad<W> {
    /// Takes one step as `step` does, and tells it twice: the same outs stand behind both lists, and the two answers are
    /// equal. After want of memory pad and disk are as before, and both lists have the items that they had.
    pub fn step_twice<D: PowerDisk>(
        &mut self,
        disk: &mut D,
        step: &Step,
        out: &mut Outs,
        second: &mut Outs,
    ) -> Result<(Stepped, Stepped), NoMemory>
        requires formed { IsTrue (is_well_formed step.now) }
        requires ids { length self.old.kept.shared.requests < 2 ^ 32 - 2 }
        requires tied { PadIsTied self.old (D.state disk.old) }

        // The step is told to either list and by either answer.
        ensures first { IfOk result (λ both. IsPadStep W.rules self.old self.new
            out.old.items out.new.items step.now both.0 (D.state disk.old) (D.state disk.new)) }
        ensures second { IfOk result (λ both. IsPadStep W.rules self.old self.new
            second.old.items second.new.items step.now both.1 (D.state disk.old) (D.state disk.new)) }
        ensures outs { OnOk result (SayAlike out.old.items out.new.items second.old.items second.new.items) }
        ensures answers { IfOk result (λ both. both.1 ≡ both.0) }

        ensures err { OnErr result (Undone self.old self.new out.old.items out.new.items) }
        ensures second_err { OnErr result (second.new.items ≡ second.old.items) }
        ensures disk_err { OnErr result (disk.new ≡ disk.old) }

        // Memory is wanted where `step` wants it.
        ensures memory { takes_memory self.old.kept.shared step.now ≡ false →
            places_for self.old.kept.shared step.now ≤ out.old.spare →
            places_for self.old.kept.shared step.now ≤ second.old.spare → IsOk result }
    {
        self.take_twice(disk, step, None, out, second)
    }

    /// Takes Finish as `step_twice` does, with a command CRYPT that was run before. Its outcome is used where it is the
    /// command of the request in work, on the keys that are kept now; otherwise that command is run here.
    pub fn step_done<D: PowerDisk>(
        &mut self,
        disk: &mut D,
        done: &CryptDone,
        out: &mut Outs,
        second: &mut Outs,
    ) -> Result<(Stepped, Stepped), NoMemory>
        requires ids { length self.old.kept.shared.requests < 2 ^ 32 - 2 }
        requires tied { PadIsTied self.old (D.state disk.old) }
        ensures told { IfOk result (λ both. IsToldTwice W.rules self.old self.new out.old.items out.new.items
            second.old.items second.new.items Finish both (D.state disk.old) (D.state disk.new)) }
        ensures err { OnErr result (Undone self.old self.new out.old.items out.new.items) }
        ensures second_err { OnErr result (second.new.items ≡ second.old.items) }
        ensures disk_err { OnErr result (disk.new ≡ disk.old) }
        ensures memory { takes_memory self.old.kept.shared Finish ≡ false →
            places_for self.old.kept.shared Finish ≤ out.old.spare →
            places_for self.old.kept.shared Finish ≤ second.old.spare → IsOk result }
    {
        self.take_twice(disk, &Step::Finish, Some(done), out, second)
    }

    // Takes one step as `step_twice` does. `done` is a command CRYPT that was run before.
    fn take_twice<D: PowerDisk>(
        &mut self,
        disk: &mut D,
        step: &Step,
        done: Option<&CryptDone>,
        out: &mut Outs,
        second: &mut Outs,
    ) -> Result<(Stepped, Stepped), NoMemory>
        requires formed { IsTrue (is_well_formed step.now) }
        requires ids { length self.old.kept.shared.requests < 2 ^ 32 - 2 }
        requires tied { PadIsTied self.old (D.state disk.old) }
        ensures first { IfOk result (λ both. IsPadStep W.rules self.old self.new
            out.old.items out.new.items step.now both.0 (D.state disk.old) (D.state disk.new)) }
        ensures second { IfOk result (λ both. IsPadStep W.rules self.old self.new
            second.old.items second.new.items step.now both.1 (D.state disk.old) (D.state disk.new)) }
        ensures outs { OnOk result (SayAlike out.old.items out.new.items second.old.items second.new.items) }
        ensures answers { IfOk result (λ both. both.1 ≡ both.0) }
        ensures err { OnErr result (Undone self.old self.new out.old.items out.new.items) }
        ensures second_err { OnErr result (second.new.items ≡ second.old.items) }
        ensures disk_err { OnErr result (disk.new ≡ disk.old) }
        ensures memory { takes_memory self.old.kept.shared step.now ≡ false →
            places_for self.old.kept.shared step.now ≤ out.old.spare →
            places_for self.old.kept.shared step.now ≤ second.old.spare → IsOk result }
    {
        works_of_commands();
        // The step is prepared once more for the second list: there is the memory of what it is told with again.
        let prepared = self.parts.prepare(without_key(step), done, second)?;
        let spare = spare_of(prepared);
        let said_before = out.items().len();
        let stepped = self.take_step(disk, step, done, out)?;
        say_again(&out.items()[said_before..], spare.out, second);
        // There are at most 64 rows, for which the room was made.
        let _rows = self.parts.rows();
        let again = Stepped {
            word: copy_word(&stepped.word, spare.rows),
            fate: stepped.fate,
        };
        Ok((stepped, again))
    }
}

// What a step that was prepared once more is told with.
fn spare_of(prepared: Prepared) -> Spare
    ensures out { result.out ≡ known_out prepared }
    ensures rows { result.rows ≡ rows_room prepared }
{
    let (out, rows) = match prepared {
        Prepared::Say(only) => (Some(only), None),
        Prepared::Finish(owner, work, _told) => (answer_out(owner, work), None),
        Prepared::Reset(_owner, kept) => (None, Some(kept)),
        Prepared::Boot(kept) => (None, Some(kept)),
        _other => (None, None),
    };
    Spare { out, rows }
}

// What is said of a work that is an answer.
fn answer_out(owner: Owner, work: Work) -> Option<Out>
    ensures { result ≡ answer_out owner work }
{
    match work {
        Work::Answer(answer) => Some(Out::Ended(owner.session, owner.id, Reply::Ok(answer))),
        _ => None,
    }
}
