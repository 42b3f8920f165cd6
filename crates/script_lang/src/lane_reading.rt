//! Lines of a lane script, read from left to right.
ghost use Rattle.std.specs.Prelude.{◌≡◌, Err, IfOk};
ghost use Rattle.script_lang.specs.Memory.{ReadsBytes};
ghost use Rattle.script_lang.specs.Reading.{Gives};
ghost use Rattle.script_lang.specs.LaneReading.{lane_line_of, lane_step_holds_bytes, plain_of, read_await, read_lane_ask, read_lane_cancel, read_lane_step, read_own_step, read_plain, read_reply, WantsLaneMemory};
ghost use Rattle.script_lang.specs.LaneSpelling.{has_no_id, is_plain, HasFormedStep, HasLane, SpellsLane};
ghost use Rattle.script_lang.specs.declared.kinds.LineFault.TheVariants.{NoMemory, Outside};
ghost use Rattle.script_lang.specs.declared.lane_kinds.LaneLine.{LaneLine};

use crate::commands::present;
use crate::cutting::{ended, next_word, word_len};
use crate::fields::read_session;
use crate::kinds::{Line, LineFault, QuestionVerb};
use crate::lane_fields::{read_awaited, read_lane, read_lane_id, read_lane_verb, read_nth};
use crate::lane_kinds::{LaneLine, LaneStep, LaneVerb};
use crate::reading::{is_blank, read_line};
use crate::verb_fields::read_question_verb;
use pad_steps::{Question, Step};
use std::alloc::Global;

// `reply` and the number of a Submit, to the line's end
#[tactic(auto, unfolding(crate::specs::LaneReading::read_reply))]
fn read_reply(rest: &[u8]) -> Option<u32>
    ensures { result ≡ read_reply rest.now }
{
    let (word, rest) = next_word(rest)?;
    match read_question_verb(word)? {
        QuestionVerb::Reply => {
            let (word, rest) = next_word(rest)?;
            let number = read_nth(word)?;
            ended(rest)?;
            Some(number)
        }
        QuestionVerb::Status | QuestionVerb::Key | QuestionVerb::Names => None,
    }
}

// a session, and what it cancels
#[tactic(auto, unfolding(crate::specs::LaneReading::read_lane_cancel))]
fn read_lane_cancel(rest: &[u8]) -> Option<LaneStep>
    ensures { result ≡ read_lane_cancel rest.now }
{
    let (word, rest) = next_word(rest)?;
    let session = read_session(word)?;
    let (word, rest) = next_word(rest)?;
    let id = read_lane_id(word)?;
    ended(rest)?;
    Some(LaneStep::Cancel(session, id))
}

// a session, and the reply that it asks for
#[tactic(auto, unfolding(crate::specs::LaneReading::read_lane_ask))]
fn read_lane_ask(rest: &[u8]) -> Option<LaneStep>
    ensures { result ≡ read_lane_ask rest.now }
{
    let (word, rest) = next_word(rest)?;
    let session = read_session(word)?;
    let number = read_reply(rest)?;
    Some(LaneStep::AskReply(session, number))
}

// an entry, or the reply that a session waits for
#[tactic(auto, unfolding(crate::specs::LaneReading::read_await))]
fn read_await(rest: &[u8]) -> Option<LaneStep>
    ensures { result ≡ read_await rest.now }
{
    let (word, rest) = next_word(rest)?;
    match read_awaited(word)? {
        None => {
            ended(rest)?;
            Some(LaneStep::AwaitEntry)
        }
        Some(session) => {
            let number = read_reply(rest)?;
            Some(LaneStep::AwaitReply(session, number))
        }
    }
}

// a step that stands in lane scripts alone
#[tactic(auto, unfolding(crate::specs::LaneReading::read_own_step))]
fn read_own_step(rest: &[u8]) -> Option<LaneStep>
    ensures { result ≡ read_own_step rest.now }
{
    let (word, rest) = next_word(rest)?;
    match read_lane_verb(word)? {
        LaneVerb::Cancel => read_lane_cancel(rest),
        LaneVerb::Ask => read_lane_ask(rest),
        LaneVerb::Await => read_await(rest),
    }
}

// whether the question names no id
fn has_no_id(question: &Question) -> bool
    ensures { result ≡ has_no_id question.now }
{
    match question {
        Question::Reply(_) => false,
        Question::Status | Question::Key(_) | Question::Names => true,
    }
}

// whether lanes spell the step as scripts do
fn is_plain(step: &Step) -> bool
    ensures { result ≡ is_plain step.now }
{
    match step {
        Step::Begin | Step::Finish | Step::Cancel(_, _) => false,
        Step::Ask(_, question) => has_no_id(question),
        _ => true,
    }
}

// the step of a script's line, where lanes have it
fn plain_of(line: Line) -> Option<LaneStep>
    ensures { result ≡ plain_of line }
{
    match line {
        Line::Do(step) => {
            if is_plain(&step) {
                Some(LaneStep::Plain(step))
            } else {
                None
            }
        }
        _ => None,
    }
}

// a line of a script that is a step which lanes have
fn read_plain(alloc: Global, line: &[u8]) -> Result<LaneStep, LineFault>
    ensures given { Gives result (read_plain line.now) }
    ensures memory { result ≡ Err NoMemory → ReadsBytes lane_step_holds_bytes (read_plain line.now) }
{
    present(plain_of(read_line(alloc, line)?))
}

// the step behind the lane's word and a space
#[tactic(auto, unfolding(crate::specs::LaneReading::read_lane_step))]
fn read_lane_step(alloc: Global, rest: &[u8]) -> Result<LaneStep, LineFault>
    ensures given { Gives result (read_lane_step rest.now) }
    ensures memory { result ≡ Err NoMemory → ReadsBytes lane_step_holds_bytes (read_lane_step rest.now) }
{
    match rest {
        [b' ', line @ ..] => match read_plain(alloc, line) {
            Ok(step) => Ok(step),
            Err(LineFault::NoMemory) => Err(LineFault::NoMemory),
            Err(LineFault::Outside) => present(read_own_step(rest)),
        },
        _ => Err(LineFault::Outside),
    }
}

// the line that these bytes spell
#[tactic(auto, unfolding(crate::specs::LaneReading::lane_line_of))]
fn read_spelled(alloc: Global, bytes: &[u8]) -> Result<LaneLine, LineFault>
    ensures given { Gives result (lane_line_of bytes.now) }
    ensures memory { result ≡ Err NoMemory → WantsLaneMemory (lane_line_of bytes.now) }
{
    if is_blank(bytes) {
        return Ok(LaneLine::Blank);
    }
    let (word, rest) = bytes.split_at(word_len(bytes));
    let lane = present(read_lane(word))?;
    let step = read_lane_step(alloc, rest)?;
    Ok(LaneLine::At(lane, step))
}

/// What a line of a lane script says, its bytes without the line feed. `Outside` exactly where no such line is
/// spelled so, and `NoMemory` for a line that holds bytes alone.
/// It takes time in proportion to the line's length, and memory for the bytes of a step's command alone.
pub fn read_lane_line(alloc: Global, line: &[u8]) -> Result<LaneLine, LineFault>
    ensures found { IfOk result (λ l. SpellsLane line.now l) }
    ensures outside { result ≡ Err Outside → (l : LaneLine) → SpellsLane line.now l → ⊥ }
    ensures exact { Gives result (lane_line_of line.now) }
    ensures memory { result ≡ Err NoMemory → WantsLaneMemory (lane_line_of line.now) }
    ensures lane { IfOk result (λ l. HasLane l) }
    ensures formed { IfOk result (λ l. HasFormedStep l) }
{
    read_spelled(alloc, line)
}
