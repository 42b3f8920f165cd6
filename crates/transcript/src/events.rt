//! Events put behind a text.
ghost use Rattle.std.specs.Prelude.{◌≡◌, ◌++◌, OnOk};
ghost use Rattle.transcript.specs.Events.{shown_key_text, event_text};

use crate::refusals::put_refusal;
use pad_steps::{Event, Shown};
use pad_words::{NoMemory, Octets};
use script_lang::writing::{write_key, write_word};
use std::alloc::Global;

#[tactic(auto, unfolding(crate::specs::Events::shown_key_text))]
fn put_shown_key(shown: &Shown, text: &mut Octets) -> Result<(), NoMemory>
    ensures { OnOk result (text.new ≡ text.old ++ shown_key_text shown.now) }
{
    match shown {
        Shown::Masked => write_word("*", text),
        Shown::Plain(key) => write_key(*key, text),
    }
}

#[tactic(auto, unfolding(crate::specs::Events::event_text))]
pub fn put_event(alloc: Global, event: &Event, text: &mut Octets) -> Result<(), NoMemory>
    ensures { OnOk result (text.new ≡ text.old ++ event_text event.now) }
{
    match event {
        Event::EnterData => write_word("ENTERDATA", text),
        Event::Key(shown) => {
            write_word("KEY ", text)?;
            put_shown_key(shown, text)
        }
        Event::Initialized => write_word("INITIALIZED", text),
        Event::IllegalKeyAccess(name, refusal) => {
            write_word("ILLEGALKEYACCESS ", text)?;
            text.append(name.text())?;
            write_word(" ", text)?;
            put_refusal(alloc, refusal, text)
        }
    }
}
