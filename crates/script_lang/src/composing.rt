//! A step's line. After want of memory a part of the text may stand.
ghost use Rattle.std.specs.Prelude.{◌≡◌, ◌++◌, ◌∷◌, [], OnOk, IfSome, IsTrue};
ghost use Rattle.std.specs.Option.{option_copied};
ghost use Rattle.pad_steps.specs.Formed.{is_well_formed};
ghost use Rattle.script_lang.specs.Words.{joined};
ghost use Rattle.script_lang.specs.Spelling.{line_verb_word, session_word, shown_text, step_text};

use crate::kinds::LineVerb;
use crate::put_commands::put_command;
use crate::put_fields::{put_number, put_session, put_word};
use crate::put_questions::put_question;
use crate::verb_fields::line_verb_word;
use crate::word_fields::classes_word;
use crate::writing::{write_key, write_word};
use pad_steps::Step;
use pad_words::{NoMemory, Octets, Session};
use std::alloc::Global;

// the words of a line of one session and no more
fn put_session_line(
    alloc: Global,
    verb: LineVerb,
    session: &Session,
    text: &mut Octets,
) -> Result<(), NoMemory>
    ensures { OnOk result (text.new ≡ text.old ++ joined (line_verb_word verb ∷ session_word session.now ∷ [])) }
{
    write_word(line_verb_word(verb), text)?;
    put_session(alloc, session, text)
}

// the step's line
#[tactic(auto, unfolding(crate::specs::Spelling::step_text))]
fn put_step(alloc: Global, step: &Step, text: &mut Octets) -> Result<(), NoMemory>
    requires { IsTrue (is_well_formed step.now) }
    ensures { OnOk result (text.new ≡ text.old ++ step_text step.now) }
{
    match step {
        Step::Open(session) => put_session_line(alloc, LineVerb::Open, session, text),
        Step::Close(session) => put_session_line(alloc, LineVerb::Close, session, text),
        Step::Listen(session, classes) => {
            put_session_line(alloc, LineVerb::Listen, session, text)?;
            put_word(classes_word(*classes), text)
        }
        Step::Lock(session) => put_session_line(alloc, LineVerb::Lock, session, text),
        Step::Unlock(session) => put_session_line(alloc, LineVerb::Unlock, session, text),
        Step::Submit(session, limit, command) => {
            put_session_line(alloc, LineVerb::Submit, session, text)?;
            put_number(alloc, *limit, text)?;
            put_command(alloc, command, text)
        }
        Step::Cancel(session, id) => {
            put_session_line(alloc, LineVerb::Cancel, session, text)?;
            put_number(alloc, *id, text)
        }
        Step::Begin => write_word(line_verb_word(LineVerb::Begin), text),
        Step::Finish => write_word(line_verb_word(LineVerb::Finish), text),
        Step::Press(key) => {
            write_word(line_verb_word(LineVerb::Press), text)?;
            text.push(b' ')?;
            write_key(*key, text)
        }
        Step::Tick(ticks) => {
            write_word(line_verb_word(LineVerb::Tick), text)?;
            put_number(alloc, *ticks, text)
        }
        Step::Ask(session, asked) => {
            put_session_line(alloc, LineVerb::Ask, session, text)?;
            put_question(alloc, asked, text)
        }
        Step::Off => write_word(line_verb_word(LineVerb::Off), text),
        Step::Boot => write_word(line_verb_word(LineVerb::Boot), text),
    }
}

// the line of a shown step, or of a press whose key is not told
#[tactic(auto, unfolding(crate::specs::Spelling::shown_text))]
pub fn put_shown(alloc: Global, shown: Option<&Step>, text: &mut Octets) -> Result<(), NoMemory>
    requires { IfSome shown (λ step. IsTrue (is_well_formed step.now)) }
    ensures { OnOk result (text.new ≡ text.old ++ shown_text (option_copied shown.entry)) }
{
    match shown {
        Some(step) => put_step(alloc, step, text),
        None => {
            write_word(line_verb_word(LineVerb::Press), text)?;
            write_word(" *", text)
        }
    }
}
