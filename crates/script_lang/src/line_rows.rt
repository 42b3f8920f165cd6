//! Lines behind their first word, one function for each that has more than a session.
ghost use Rattle.std.specs.Prelude.{◌≡◌, Err};
ghost use Rattle.script_lang.specs.declared.kinds.LineFault.TheVariants.{NoMemory};
ghost use Rattle.script_lang.specs.Memory.{WantsMemory};
ghost use Rattle.script_lang.specs.Reading.{read_ask, read_cancel, read_cut, read_fail, read_keep, read_listen, read_only_session, read_press, read_question, read_submit, read_tick, Gives};

use crate::commands::{present, read_command};
use crate::cutting::{ended, next_word};
use crate::digit_fields::read_byte;
use crate::fields::{read_number, read_session};
use crate::kinds::{KeepVerb, Line, LineFault, QuestionVerb};
use crate::name_fields::read_name;
use crate::verb_fields::{read_keep_verb, read_question_verb};
use crate::word_fields::read_classes;
use disk_core::{Keep, Strike};
use key_source::Key;
use pad_steps::{Question, Step};
use pad_words::Session;
use std::alloc::Global;

/// The greatest number of a call that a line arms.
pub const LAST_CALL: u32 = 1000;

/// The greatest number of ticks of a limit and of a tick.
const MOST_TICKS: u32 = 1_000_000;

// a session, to the line's end
#[tactic(auto, unfolding(crate::specs::Reading::read_only_session))]
pub fn read_only_session(rest: &[u8]) -> Option<Session>
    ensures { result ≡ read_only_session rest.now }
{
    let (word, rest) = next_word(rest)?;
    let session = read_session(word)?;
    ended(rest)?;
    Some(session)
}

// a session, and the classes of events that it is to hear
#[tactic(auto, unfolding(crate::specs::Reading::read_listen))]
pub fn read_listen(rest: &[u8]) -> Option<Line>
    ensures { result ≡ read_listen rest.now }
{
    let (word, rest) = next_word(rest)?;
    let session = read_session(word)?;
    let (word, rest) = next_word(rest)?;
    let classes = read_classes(word)?;
    ended(rest)?;
    Some(Line::Do(Step::Listen(session, classes)))
}

// a session, a limit of ticks and a command
#[tactic(auto, unfolding(crate::specs::Reading::read_submit))]
pub fn read_submit(alloc: Global, rest: &[u8]) -> Result<Line, LineFault>
    ensures given { Gives result (read_submit rest.now) }
    ensures memory { result ≡ Err NoMemory → WantsMemory (read_submit rest.now) }
{
    let (word, rest) = present(next_word(rest))?;
    let session = present(read_session(word))?;
    let (word, rest) = present(next_word(rest))?;
    let limit = present(read_number(0, MOST_TICKS, word))?;
    let command = read_command(alloc, rest)?;
    Ok(Line::Do(Step::Submit(session, limit, command)))
}

// a session, and the id of a request
#[tactic(auto, unfolding(crate::specs::Reading::read_cancel))]
pub fn read_cancel(rest: &[u8]) -> Option<Line>
    ensures { result ≡ read_cancel rest.now }
{
    let (word, rest) = next_word(rest)?;
    let session = read_session(word)?;
    let (word, rest) = next_word(rest)?;
    let id = read_number(0, u32::MAX, word)?;
    ended(rest)?;
    Some(Line::Do(Step::Cancel(session, id)))
}

// a key
#[tactic(auto, unfolding(crate::specs::Reading::read_press))]
pub fn read_press(rest: &[u8]) -> Option<Line>
    ensures { result ≡ read_press rest.now }
{
    let (word, rest) = next_word(rest)?;
    let key = Key::read(word)?;
    ended(rest)?;
    Some(Line::Do(Step::Press(key)))
}

// a number of ticks
#[tactic(auto, unfolding(crate::specs::Reading::read_tick))]
pub fn read_tick(rest: &[u8]) -> Option<Line>
    ensures { result ≡ read_tick rest.now }
{
    let (word, rest) = next_word(rest)?;
    let ticks = read_number(1, MOST_TICKS, word)?;
    ended(rest)?;
    Some(Line::Do(Step::Tick(ticks)))
}

// what is asked, to the line's end
#[tactic(auto, unfolding(crate::specs::Reading::read_question))]
fn read_question(rest: &[u8]) -> Option<Question>
    ensures { result ≡ read_question rest.now }
{
    let (word, rest) = next_word(rest)?;
    match read_question_verb(word)? {
        QuestionVerb::Status => {
            ended(rest)?;
            Some(Question::Status)
        }
        QuestionVerb::Key => {
            let (word, rest) = next_word(rest)?;
            let name = read_name(word)?;
            ended(rest)?;
            Some(Question::Key(name))
        }
        QuestionVerb::Names => {
            ended(rest)?;
            Some(Question::Names)
        }
        QuestionVerb::Reply => {
            let (word, rest) = next_word(rest)?;
            let id = read_number(0, u32::MAX, word)?;
            ended(rest)?;
            Some(Question::Reply(id))
        }
    }
}

// a session, and what it asks
#[tactic(auto, unfolding(crate::specs::Reading::read_ask))]
pub fn read_ask(rest: &[u8]) -> Option<Line>
    ensures { result ≡ read_ask rest.now }
{
    let (word, rest) = next_word(rest)?;
    let session = read_session(word)?;
    let question = read_question(rest)?;
    Some(Line::Do(Step::Ask(session, question)))
}

// what a power cut makes of bytes that were not synced, to the line's end
#[tactic(auto, unfolding(crate::specs::Reading::read_keep))]
fn read_keep(rest: &[u8]) -> Option<Keep>
    ensures { result ≡ read_keep rest.now }
{
    let (word, rest) = next_word(rest)?;
    match read_keep_verb(word)? {
        KeepVerb::Old => {
            ended(rest)?;
            Some(Keep::Old)
        }
        KeepVerb::New => {
            ended(rest)?;
            Some(Keep::New)
        }
        KeepVerb::Fill => {
            let (word, rest) = next_word(rest)?;
            let byte = read_byte(word)?;
            ended(rest)?;
            Some(Keep::Fill(byte))
        }
    }
}

// a call at which power is cut, and what then stands
#[tactic(auto, unfolding(crate::specs::Reading::read_cut))]
pub fn read_cut(rest: &[u8]) -> Option<Line>
    ensures { result ≡ read_cut rest.now }
{
    let (word, rest) = next_word(rest)?;
    let call = read_number(1, LAST_CALL, word)?;
    let keep = read_keep(rest)?;
    Some(Line::Arm(call, Strike::Cut(keep)))
}

// a call that fails
#[tactic(auto, unfolding(crate::specs::Reading::read_fail))]
pub fn read_fail(rest: &[u8]) -> Option<Line>
    ensures { result ≡ read_fail rest.now }
{
    let (word, rest) = next_word(rest)?;
    let call = read_number(1, LAST_CALL, word)?;
    ended(rest)?;
    Some(Line::Arm(call, Strike::Fail))
}
