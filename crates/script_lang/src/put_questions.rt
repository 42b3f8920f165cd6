//! The words of a question, a space before each. After want of memory a part of the text may stand.
ghost use Rattle.std.specs.Prelude.{◌≡◌, ◌++◌, OnOk};
ghost use Rattle.script_lang.specs.Words.{spaced};
ghost use Rattle.script_lang.specs.Spelling.{question_words};

use crate::kinds::QuestionVerb;
use crate::put_fields::{put_name, put_number, put_word};
use crate::verb_fields::question_verb_word;
use pad_steps::Question;
use pad_words::{NoMemory, Octets};
use std::alloc::Global;

// what is asked
pub fn put_question(alloc: Global, asked: &Question, text: &mut Octets) -> Result<(), NoMemory>
    ensures { OnOk result (text.new ≡ text.old ++ spaced (question_words asked.now)) }
{
    match asked {
        Question::Status => put_word(question_verb_word(QuestionVerb::Status), text),
        Question::Key(name) => {
            put_word(question_verb_word(QuestionVerb::Key), text)?;
            put_name(name, text)
        }
        Question::Names => put_word(question_verb_word(QuestionVerb::Names), text),
        Question::Reply(id) => {
            put_word(question_verb_word(QuestionVerb::Reply), text)?;
            put_number(alloc, *id, text)
        }
    }
}
