//! The lines of a step put behind a text.
ghost use Rattle.std.specs.Prelude.{◌≡◌, ◌++◌, flat_map, IfSome, IsTrue, OnOk};
ghost use Rattle.std.specs.Option.{option_copied};
ghost use Rattle.pad_steps.specs.Formed.{is_well_formed};
ghost use Rattle.transcript.specs.PrintedLines.{out_text, out_line, line_text, line_of_shown, mark_text};

use crate::disk_words::put_disk_word;
use crate::events::put_event;
use crate::questions::put_told;
use crate::refusals::put_refusal;
use crate::replies::put_reply;
use crate::values::put_session;
use pad_steps::{DiskWord, Fate, Out, Step};
use pad_words::{NoMemory, Octets};
use script_lang::writing::{write_number, write_shown, write_word};
use std::alloc::Global;

#[tactic(auto, unfolding(crate::specs::PrintedLines::out_text))]
fn put_out(alloc: Global, out: &Out, text: &mut Octets) -> Result<(), NoMemory>
    ensures { OnOk result (text.new ≡ text.old ++ out_text out.now) }
{
    match out {
        Out::Request(session, id) => {
            put_session(alloc, session, text)?;
            write_word(" request ", text)?;
            write_number(alloc, *id, text)
        }
        Out::Refused(session, refusal) => {
            put_session(alloc, session, text)?;
            write_word(" refused ", text)?;
            put_refusal(alloc, refusal, text)
        }
        Out::Ended(session, id, reply) => {
            put_session(alloc, session, text)?;
            write_word(" ended ", text)?;
            write_number(alloc, *id, text)?;
            write_word(" ", text)?;
            put_reply(alloc, reply, text)
        }
        Out::Told(session, told) => {
            put_session(alloc, session, text)?;
            write_word(" told ", text)?;
            put_told(alloc, told, text)
        }
        Out::Event(session, event) => {
            put_session(alloc, session, text)?;
            write_word(" event ", text)?;
            put_event(alloc, event, text)
        }
    }
}

#[tactic(auto, unfolding(crate::specs::PrintedLines::out_line))]
fn put_out_line(alloc: Global, out: &Out, text: &mut Octets) -> Result<(), NoMemory>
    ensures { OnOk result (text.new ≡ text.old ++ out_line out.now) }
{
    write_word("< ", text)?;
    put_out(alloc, out, text)?;
    write_word("\n", text)
}

fn put_outs(alloc: Global, outs: &[Out], text: &mut Octets) -> Result<(), NoMemory>
    ensures { OnOk result (text.new ≡ text.old ++ flat_map out_line outs.now) }
{
    for out in outs {
        put_out_line(alloc, out, text)?;
    }
    Ok(())
}

/// Puts the shown step with the disk's word on one line, and a line for each out. It sees no key of a masked press.
#[tactic(auto, unfolding(crate::specs::PrintedLines::line_text))]
pub fn put_line(
    alloc: Global,
    shown: Option<&Step>,
    word: &DiskWord,
    fate: Option<Fate>,
    outs: &[Out],
    text: &mut Octets,
) -> Result<(), NoMemory>
    requires { IfSome shown (λ step. IsTrue (is_well_formed step.now)) }
    ensures { OnOk result (text.new ≡ text.old ++ line_text (line_of_shown (option_copied shown.entry) word.now fate outs.now)) }
{
    write_word("> ", text)?;
    write_shown(alloc, shown, text)?;
    put_disk_word(alloc, word, fate, text)?;
    write_word("\n", text)?;
    put_outs(alloc, outs, text)
}

/// Puts the mark of a bad line with this number.
#[tactic(auto, unfolding(crate::specs::PrintedLines::mark_text))]
pub fn put_mark(alloc: Global, line: u32, text: &mut Octets) -> Result<(), NoMemory>
    ensures { OnOk result (text.new ≡ text.old ++ mark_text line) }
{
    write_word("! bad line ", text)?;
    write_number(alloc, line, text)?;
    write_word("\n", text)
}
