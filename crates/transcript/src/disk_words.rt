//! The disk's word put behind a text.
ghost use Rattle.std.specs.Prelude.{◌≡◌, ◌++◌, OnOk};
ghost use Rattle.transcript.specs.DiskWords.{fate_text, loaded_text, disk_word_text};

use crate::values::put_count;
use pad_steps::{DiskWord, Fate};
use pad_words::{NoMemory, Octets};
use script_lang::writing::{write_number, write_word};
use std::alloc::Global;

#[tactic(auto, unfolding(crate::specs::DiskWords::fate_text))]
fn put_fate(fate: Fate, text: &mut Octets) -> Result<(), NoMemory>
    ensures { OnOk result (text.new ≡ text.old ++ fate_text fate) }
{
    let word = match fate {
        Fate::First => "first",
        Fate::Old => "old",
        Fate::New => "new",
        Fate::Other => "other",
    };
    write_word(word, text)
}

#[tactic(auto, unfolding(crate::specs::DiskWords::loaded_text))]
fn put_loaded(
    alloc: Global,
    count: usize,
    fate: Option<Fate>,
    text: &mut Octets,
) -> Result<(), NoMemory>
    ensures { OnOk result (text.new ≡ text.old ++ loaded_text count fate) }
{
    let Some(fate) = fate else {
        return Ok(());
    };
    write_word(" / loaded ", text)?;
    put_count(alloc, count, text)?;
    write_word(" ", text)?;
    put_fate(fate, text)
}

/// Puts the word behind a slash. A loading has a fate, and nothing is put of one without.
#[tactic(auto, unfolding(crate::specs::DiskWords::disk_word_text))]
pub fn put_disk_word(
    alloc: Global,
    word: &DiskWord,
    fate: Option<Fate>,
    text: &mut Octets,
) -> Result<(), NoMemory>
    ensures { OnOk result (text.new ≡ text.old ++ disk_word_text word.now fate) }
{
    match word {
        DiskWord::Quiet => Ok(()),
        DiskWord::Done => write_word(" / done", text),
        DiskWord::Failed(n) => {
            write_word(" / failed ", text)?;
            write_number(alloc, u32::from(*n), text)
        }
        DiskWord::Cut(n) => {
            write_word(" / cut ", text)?;
            write_number(alloc, u32::from(*n), text)
        }
        DiskWord::Loaded(rows) => put_loaded(alloc, rows.items().len(), fate, text),
        DiskWord::Bad(slot) => {
            write_word(" / bad ", text)?;
            write_number(alloc, u32::from(*slot), text)
        }
    }
}
