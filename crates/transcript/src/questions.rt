//! What a session is told, put behind a text.
ghost use Rattle.std.specs.Prelude.{◌≡◌, ◌++◌, flat_map, OnOk};
ghost use Rattle.transcript.specs.Questions.{state_text, holder_text, status_text, uses_text, key_check_text, key_view_text, spaced_name, names_text, told_text};

use crate::refusals::put_refusal;
use crate::replies::put_reply;
use crate::values::{put_bytes, put_count, put_session, put_yes_no};
use pad_steps::{KeyView, StatusView, Told};
use pad_words::{KeyName, NoMemory, Octets, Session};
use script_lang::writing::{write_classes, write_number, write_word};
use std::alloc::Global;

#[tactic(auto, unfolding(crate::specs::Questions::state_text))]
fn put_state(state: u8, text: &mut Octets) -> Result<(), NoMemory>
    ensures { OnOk result (text.new ≡ text.old ++ state_text state) }
{
    let word = match state {
        0 => "off",
        1 => "ready",
        2 => "stopped",
        _ => "bad",
    };
    write_word(word, text)
}

#[tactic(auto, unfolding(crate::specs::Questions::holder_text))]
fn put_holder(alloc: Global, holder: &Option<Session>, text: &mut Octets) -> Result<(), NoMemory>
    ensures { OnOk result (text.new ≡ text.old ++ holder_text holder.now) }
{
    match holder {
        Some(session) => put_session(alloc, session, text),
        None => write_word("0", text),
    }
}

#[tactic(auto, unfolding(crate::specs::Questions::status_text))]
fn put_status(alloc: Global, view: &StatusView, text: &mut Octets) -> Result<(), NoMemory>
    ensures { OnOk result (text.new ≡ text.old ++ status_text view.now) }
{
    write_word("status ", text)?;
    put_state(view.state, text)?;
    write_word(" keys ", text)?;
    write_number(alloc, u32::from(view.keys), text)?;
    write_word(" holder ", text)?;
    put_holder(alloc, &view.holder, text)?;
    write_word(" entry ", text)?;
    put_yes_no(view.entry, text)?;
    write_word(" pin ", text)?;
    put_yes_no(view.pin, text)?;
    write_word(" pending ", text)?;
    write_number(alloc, u32::from(view.pending), text)
}

#[tactic(auto, unfolding(crate::specs::Questions::uses_text))]
fn put_uses(alloc: Global, uses: u16, text: &mut Octets) -> Result<(), NoMemory>
    ensures { OnOk result (text.new ≡ text.old ++ uses_text uses) }
{
    put_bytes(alloc, &[(uses / 256) as u8, (uses % 256) as u8], text)
}

#[tactic(auto, unfolding(crate::specs::Questions::key_check_text))]
fn put_key_check(alloc: Global, check: &Option<[u8; 3]>, text: &mut Octets) -> Result<(), NoMemory>
    ensures { OnOk result (text.new ≡ text.old ++ key_check_text check.now) }
{
    match check {
        Some(check) => put_bytes(alloc, check, text),
        None => write_word("part", text),
    }
}

#[tactic(auto, unfolding(crate::specs::Questions::key_view_text))]
fn put_key_view(alloc: Global, view: &KeyView, text: &mut Octets) -> Result<(), NoMemory>
    ensures { OnOk result (text.new ≡ text.old ++ key_view_text view.now) }
{
    write_word("key ", text)?;
    text.append(view.name.text())?;
    write_word(" ", text)?;
    put_uses(alloc, view.uses.bits(), text)?;
    write_word(" ", text)?;
    write_number(alloc, u32::from(view.length), text)?;
    write_word(" ", text)?;
    put_key_check(alloc, &view.check, text)
}

#[tactic(auto, unfolding(crate::specs::Questions::spaced_name))]
fn put_spaced_name(name: &KeyName, text: &mut Octets) -> Result<(), NoMemory>
    ensures { OnOk result (text.new ≡ text.old ++ spaced_name name.now) }
{
    write_word(" ", text)?;
    text.append(name.text())
}

fn put_spaced_names(names: &[KeyName], text: &mut Octets) -> Result<(), NoMemory>
    ensures { OnOk result (text.new ≡ text.old ++ flat_map spaced_name names.now) }
{
    for name in names {
        put_spaced_name(name, text)?;
    }
    Ok(())
}

#[tactic(auto, unfolding(crate::specs::Questions::names_text))]
fn put_names(alloc: Global, names: &[KeyName], text: &mut Octets) -> Result<(), NoMemory>
    ensures { OnOk result (text.new ≡ text.old ++ names_text names.now) }
{
    write_word("names ", text)?;
    put_count(alloc, names.len(), text)?;
    put_spaced_names(names, text)
}

#[tactic(auto, unfolding(crate::specs::Questions::told_text))]
pub fn put_told(alloc: Global, told: &Told, text: &mut Octets) -> Result<(), NoMemory>
    ensures { OnOk result (text.new ≡ text.old ++ told_text told.now) }
{
    match told {
        Told::Opened => write_word("open", text),
        Told::Closed => write_word("closed", text),
        Told::Listening(classes) => {
            write_word("listening ", text)?;
            write_classes(*classes, text)
        }
        Told::Granted => write_word("granted", text),
        Told::Waiting(holder) => {
            write_word("waiting ", text)?;
            put_session(alloc, holder, text)
        }
        Told::Released => write_word("released", text),
        Told::Canceled(n) => {
            write_word("cancel ", text)?;
            write_number(alloc, u32::from(*n), text)
        }
        Told::Status(view) => put_status(alloc, view, text),
        Told::Key(view) => put_key_view(alloc, view, text),
        Told::Names(names) => put_names(alloc, names.items(), text),
        Told::Pending => write_word("pending", text),
        Told::Reply(id, reply) => {
            write_word("reply ", text)?;
            write_number(alloc, *id, text)?;
            write_word(" ", text)?;
            put_reply(alloc, reply, text)
        }
        Told::No(refusal) => put_refusal(alloc, refusal, text),
    }
}
