//! Replies put behind a text.
ghost use Rattle.std.specs.Prelude.{◌≡◌, ◌++◌, OnOk};
ghost use Rattle.transcript.specs.Replies.{completion_text, answer_text, reply_text};

use crate::refusals::put_refusal;
use crate::values::{put_bytes, put_check, put_digits, put_yes_no};
use pad_steps::{Answer, Completion, Reply};
use pad_words::{NoMemory, Octets};
use script_lang::writing::{write_number, write_word};
use std::alloc::Global;

#[tactic(auto, unfolding(crate::specs::Replies::completion_text))]
fn put_completion(alloc: Global, completion: Completion, text: &mut Octets) -> Result<(), NoMemory>
    ensures { OnOk result (text.new ≡ text.old ++ completion_text completion) }
{
    match completion {
        Completion::Auto => write_word("auto", text),
        Completion::Enter => write_word("enter", text),
        Completion::Cancel => write_word("cancel", text),
        Completion::Help => write_word("help", text),
        Completion::Fdk(n) => {
            write_word("fdk", text)?;
            write_number(alloc, u32::from(n), text)
        }
    }
}

#[tactic(auto, unfolding(crate::specs::Replies::answer_text))]
fn put_answer(alloc: Global, answer: &Answer, text: &mut Octets) -> Result<(), NoMemory>
    ensures { OnOk result (text.new ≡ text.old ++ answer_text answer.now) }
{
    match answer {
        Answer::Done => write_word("OK", text),
        Answer::Entered(n, completion) => {
            write_word("OK entered ", text)?;
            write_number(alloc, u32::from(*n), text)?;
            write_word(" ", text)?;
            put_completion(alloc, *completion, text)
        }
        Answer::Figures(digits, completion) => {
            write_word("OK figures ", text)?;
            put_digits(digits.items(), text)?;
            write_word(" ", text)?;
            put_completion(alloc, *completion, text)
        }
        Answer::Part(n, completion, check) => {
            write_word("OK part ", text)?;
            write_number(alloc, u32::from(*n), text)?;
            write_word(" ", text)?;
            put_completion(alloc, *completion, text)?;
            write_word(" ", text)?;
            put_check(alloc, check, text)
        }
        Answer::Block(block) => {
            write_word("OK block ", text)?;
            put_bytes(alloc, &block.0, text)
        }
        Answer::Wide(left, right) => {
            write_word("OK block ", text)?;
            put_bytes(alloc, &left.0, text)?;
            put_bytes(alloc, &right.0, text)
        }
        Answer::Checked(holds) => {
            write_word("OK check ", text)?;
            put_yes_no(*holds, text)
        }
        Answer::Crypt(bytes) => {
            write_word("OK crypt ", text)?;
            put_bytes(alloc, bytes.items(), text)
        }
        Answer::Mac(block) => {
            write_word("OK mac ", text)?;
            put_bytes(alloc, &block.0, text)
        }
        Answer::Key(check) => {
            write_word("OK key ", text)?;
            put_check(alloc, check, text)
        }
    }
}

#[tactic(auto, unfolding(crate::specs::Replies::reply_text))]
pub fn put_reply(alloc: Global, reply: &Reply, text: &mut Octets) -> Result<(), NoMemory>
    ensures { OnOk result (text.new ≡ text.old ++ reply_text reply.now) }
{
    match reply {
        Reply::Ok(answer) => put_answer(alloc, answer, text),
        Reply::No(refusal) => put_refusal(alloc, refusal, text),
    }
}
