// Copies of what a step comes to, without memory.
ghost use Rattle.std.specs.Prelude.{◌≡◌, ◌≤◌, ◌++◌, false, length};
ghost use Rattle.pad_machine.specs.Twice.{AreAsKnown, HasRoomForWord, answer_holds_list, holds_list, reply_holds_list, told_holds_list};
ghost use Rattle.std.specs.List.{All};

use crate::saying::say;
use key_attributes::KeyRow;
use key_table::copy_rows;
use pad_steps::{Answer, DiskWord, KeyView, Out, Outs, Reply, Rows, Told};

/// Says once more what was said, in the second list. `known` is the out that may hold a list.
pub fn say_again(said: &[Out], known: Option<Out>, second: &mut Outs)
    requires room { length said.now ≤ second.old.spare }
    requires known { AreAsKnown known said.now }
    ensures { second.new.items ≡ second.old.items ++ said.now }
{
    match known {
        Some(only) => say(second, only),
        None => say_copies(said, second),
    }
}

// Says copies of these, which hold no list.
fn say_copies(said: &[Out], second: &mut Outs)
    requires room { length said.now ≤ second.old.spare }
    requires listless { All (λ item. holds_list item ≡ false) said.now }
    ensures { second.new.items ≡ second.old.items ++ said.now }
{
    for item in said {
        say(second, copy_out(item));
    }
}

fn copy_out(item: &Out) -> Out
    requires { holds_list item.now ≡ false }
    ensures { result ≡ item.now }
{
    match item {
        Out::Request(session, id) => Out::Request(*session, *id),
        Out::Refused(session, refusal) => Out::Refused(*session, refusal.copy()),
        Out::Ended(session, id, reply) => Out::Ended(*session, *id, copy_reply(reply)),
        Out::Told(session, told) => Out::Told(*session, copy_told(told)),
        Out::Event(session, event) => Out::Event(*session, event.copy()),
    }
}

fn copy_told(told: &Told) -> Told
    requires { told_holds_list told.now ≡ false }
    ensures { result ≡ told.now }
{
    match told {
        Told::Opened => Told::Opened,
        Told::Closed => Told::Closed,
        Told::Listening(classes) => Told::Listening(*classes),
        Told::Granted => Told::Granted,
        Told::Waiting(holder) => Told::Waiting(*holder),
        Told::Released => Told::Released,
        Told::Canceled(count) => Told::Canceled(*count),
        Told::Status(view) => Told::Status(*view),
        Told::Key(view) => Told::Key(copy_view(view)),
        Told::Names(_) => unreachable!(),
        Told::Pending => Told::Pending,
        Told::Reply(id, reply) => Told::Reply(*id, copy_reply(reply)),
        Told::No(refusal) => Told::No(refusal.copy()),
    }
}

fn copy_view(view: &KeyView) -> KeyView
    ensures { result ≡ view.now }
{
    KeyView {
        name: view.name.copy(),
        uses: view.uses,
        length: view.length,
        check: view.check,
    }
}

fn copy_reply(reply: &Reply) -> Reply
    requires { reply_holds_list reply.now ≡ false }
    ensures { result ≡ reply.now }
{
    match reply {
        Reply::Ok(answer) => Reply::Ok(copy_answer(answer)),
        Reply::No(refusal) => Reply::No(refusal.copy()),
    }
}

fn copy_answer(answer: &Answer) -> Answer
    requires { answer_holds_list answer.now ≡ false }
    ensures { result ≡ answer.now }
{
    match answer {
        Answer::Done => Answer::Done,
        Answer::Entered(count, completion) => Answer::Entered(*count, *completion),
        Answer::Figures(digits, completion) => Answer::Figures(digits.copy(), *completion),
        Answer::Part(count, completion, check) => Answer::Part(*count, *completion, *check),
        Answer::Block(block) => Answer::Block(*block),
        Answer::Wide(left, right) => Answer::Wide(*left, *right),
        Answer::Checked(holds) => Answer::Checked(*holds),
        Answer::Crypt(_) => unreachable!(),
        Answer::Mac(code) => Answer::Mac(*code),
        Answer::Key(check) => Answer::Key(*check),
    }
}

/// The word once more. Rows that were loaded are copied into `room`.
pub fn copy_word(word: &DiskWord, room: Option<Vec<(u8, KeyRow)>>) -> DiskWord
    requires { HasRoomForWord word.now room }
    ensures { result ≡ word.now }
{
    match word {
        DiskWord::Quiet => DiskWord::Quiet,
        DiskWord::Done => DiskWord::Done,
        DiskWord::Failed(count) => DiskWord::Failed(*count),
        DiskWord::Cut(count) => DiskWord::Cut(*count),
        DiskWord::Loaded(rows) => match room {
            Some(mut copy) => {
                copy_rows(rows.items(), &mut copy);
                DiskWord::Loaded(Rows::of(copy))
            }
            None => unreachable!(),
        },
        DiskWord::Bad(slot) => DiskWord::Bad(*slot),
    }
}
