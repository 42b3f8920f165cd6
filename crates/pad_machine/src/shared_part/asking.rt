// Ask: all of it is decided before anything is said.
ghost use Rattle.std.specs.Prelude.{◌≡◌, ◌≤◌, IfNone, IfOk, IfSome, IsOk, false};
ghost use Rattle.flat_machine.specs.Machine.{has_pin};
ghost use Rattle.flat_machine.specs.RequestSteps.{answer_to, key_view, next_ask, told_key, told_ready, told_request};
ghost use Rattle.flat_machine.specs.Settings.{triple_des};
ghost use Rattle.key_table.specs.KeyRows.{find_row, names_of};
ghost use Rattle.pad_machine.specs.Memory.{makes_answer};
ghost use Rattle.pad_machine.specs.Prepares.{ComesTo, IsPlanned, Prepares, deciding};
ghost use Rattle.pad_machine.specs.Stands.{IsSound, shared_of};
ghost use Rattle.pad_steps.specs.declared.answers.Told.TheVariants.{Names as ToldNames, No as ToldNo};
ghost use Rattle.pad_steps.specs.declared.answers.Told.{Told as Telling};
ghost use Rattle.pad_steps.specs.declared.steps.Step.TheVariants.{Ask as AskStep};
ghost use Rattle.request_queue.specs.Requests.{look};
ghost use Rattle.session_book.specs.Sessions.{floor_of};

use super::Shared;
use super::sessions::told_no;
use crate::prepared::Prepared;
use check_values::check_value;
use flat_machine::types::Device;
use key_attributes::KeyRow;
use pad_steps::{KeyView, Names, Out, Outs, Question, Refusal, Reply, Told, Verify};
use pad_words::{KeyName, NoMemory, Session};
use pin_blocks::PinWork;
use request_queue::Found;
use std::alloc::Global;

impl<W: PinWork + Drop> Shared<W> {
    // What Ask comes to, at this number of held digits.
    pub(super) fn prepare_ask(
        &self,
        held: usize,
        session: Session,
        question: &Question,
        out: &mut Outs,
    ) -> Result<Prepared, NoMemory>
        requires { IsSound W.rules (shared_of self.now) }
        ensures ready { Prepares W.rules self.now self.now out.old out.new result }
        ensures does { IfOk result (λ prepared.
            ComesTo W.rules self.now held prepared (λ seed shared digits word.
            next_ask triple_des shared (has_pin digits) session question.now)) }
        ensures planned { IfOk result (λ prepared.
            IsPlanned (deciding W.rules) (shared_of self.now) prepared (AskStep session question.now)) }
        ensures memory { makes_answer question.now ≡ false → 1 ≤ out.old.spare → IsOk result }
    {
        out.reserve(1)?;
        let Some(floor) = self.sessions.floor(session) else {
            return Ok(told_no(session, Refusal::NoSession));
        };
        let told = self.answer(held > 0, session, floor, question)?;
        Ok(Prepared::Say(Out::Told(session, told)))
    }

    // The answer to a question of the session, which is open with this floor, where a PIN is held or not.
    fn answer(
        &self,
        has_pin: bool,
        session: Session,
        floor: u32,
        question: &Question,
    ) -> Result<Told, NoMemory>
        requires sound { IsSound W.rules (shared_of self.now) }
        requires floor { floor ≡ floor_of session self.now.sessions }
        ensures answer { IfOk result (λ told.
            told ≡ answer_to triple_des (shared_of self.now) has_pin session question.now) }
        ensures memory { makes_answer question.now ≡ false → IsOk result }
    {
        match question {
            Question::Status => Ok(Told::Status(self.status_view(has_pin, session))),
            Question::Key(name) => Ok(self.told_key(name)),
            Question::Names => self.told_names(),
            Question::Reply(id) => self.told_request(session, floor, *id),
        }
    }

    // What is told of the key of this name.
    fn told_key(&self, name: &KeyName) -> Told
        ensures { result ≡ told_ready self.now.device (told_key triple_des (find_row name.now self.now.store.rows)) }
    {
        if let Some(refusal) = self.unready_refusal() {
            return Told::No(refusal);
        }
        match self.keys.find(name) {
            Some(row) => Told::Key(key_view(row)),
            None => Told::No(Refusal::KeyNotFound),
        }
    }

    // The names of all keys, where the device tells them.
    fn told_names(&self) -> Result<Told, NoMemory>
        ensures { IfOk result (λ told.
            told ≡ told_ready self.now.device (ToldNames (names_of self.now.store.rows))) }
    {
        if let Some(refusal) = self.unready_refusal() {
            return Ok(Told::No(refusal));
        }
        Ok(Told::Names(names_of(self.alloc, self.keys.rows())?))
    }

    // What a device that is not ready tells in place of its keys.
    fn unready_refusal(&self) -> Option<Refusal>
        ensures unready { IfSome result (λ refusal.
            (rest : Telling) → told_ready self.now.device rest ≡ ToldNo refusal) }
        ensures ready { IfNone result ((rest : Telling) → told_ready self.now.device rest ≡ rest) }
    {
        match self.device {
            Device::Off => Some(Refusal::ConnectionLost),
            Device::Ready => None,
            Device::Stopped => Some(Refusal::HardwareError),
            Device::Bad(slot) => Some(Refusal::BadStore(slot)),
        }
    }

    // What is told of the request with this id, above the session's floor.
    fn told_request(&self, session: Session, floor: u32, id: u32) -> Result<Told, NoMemory>
        ensures { IfOk result (λ told. told ≡ told_request id (look session floor id self.now.requests)) }
    {
        match self.requests.look(session, floor, id) {
            Found::InvalidReqId => Ok(Told::No(Refusal::InvalidReqId)),
            Found::Pending => Ok(Told::Pending),
            Found::Ended(reply) => Ok(Told::Reply(id, copy_reply(self.alloc, reply)?)),
        }
    }
}

// What is shown of a key: a key under construction has no check value.
fn key_view(row: &KeyRow) -> KeyView
    ensures { result ≡ key_view triple_des row.now }
{
    let check = if row.uses.under_construction() {
        None
    } else {
        check_value(&row.value, Verify::Zero)
    };
    KeyView {
        name: row.name.copy(),
        uses: row.uses,
        length: row.value.bytes().len() as u8,
        check,
    }
}

// The names of the rows, in order.
fn names_of(alloc: Global, rows: &[(u8, KeyRow)]) -> Result<Names, NoMemory>
    ensures { IfOk result (λ names. names ≡ names_of rows.now) }
{
    let mut names = Names::empty(alloc);
    for row in rows {
        names.push(row.1.name.copy())?;
    }
    Ok(names)
}

// The reply once more. It fails for want of memory alone.
fn copy_reply(alloc: Global, reply: &Reply) -> Result<Reply, NoMemory>
    ensures { IfOk result (λ copy. copy ≡ reply.now) }
{
    match reply {
        Reply::Ok(answer) => Ok(Reply::Ok(answer.copy(alloc)?)),
        Reply::No(refusal) => Ok(Reply::No(refusal.copy())),
    }
}
