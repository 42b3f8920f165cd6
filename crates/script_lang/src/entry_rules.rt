//! The rules of entries, to the line's end.
ghost use Rattle.std.specs.Prelude.{◌≡◌};
ghost use Rattle.script_lang.specs.Reading.{read_part, read_rules};

use crate::cutting::{ended, next_word};
use crate::digit_fields::read_mask;
use crate::fields::read_number;
use crate::word_fields::{read_end, read_verify};
use pad_steps::{EntryRules, PartRules};

// the rules of the entry of a PIN or of data
#[tactic(auto, unfolding(crate::specs::Reading::read_rules))]
pub fn read_rules(rest: &[u8]) -> Option<EntryRules>
    ensures { result ≡ read_rules rest.now }
{
    let (word, rest) = next_word(rest)?;
    let min = read_number(0, 255, word)?;
    let (word, rest) = next_word(rest)?;
    let max = read_number(0, 255, word)?;
    let (word, rest) = next_word(rest)?;
    let auto_end = read_end(word)?;
    let (word, rest) = next_word(rest)?;
    let active = read_mask(word)?;
    let (word, rest) = next_word(rest)?;
    let terminate = read_mask(word)?;
    ended(rest)?;
    Some(EntryRules {
        min: min as u8,
        max: max as u8,
        auto_end,
        active,
        terminate,
    })
}

// the rules of the entry of a key part
#[tactic(auto, unfolding(crate::specs::Reading::read_part))]
pub fn read_part(rest: &[u8]) -> Option<PartRules>
    ensures { result ≡ read_part rest.now }
{
    let (word, rest) = next_word(rest)?;
    let count = read_number(0, 255, word)?;
    let (word, rest) = next_word(rest)?;
    let auto_end = read_end(word)?;
    let (word, rest) = next_word(rest)?;
    let active = read_mask(word)?;
    let (word, rest) = next_word(rest)?;
    let terminate = read_mask(word)?;
    let (word, rest) = next_word(rest)?;
    let verify = read_verify(word)?;
    ended(rest)?;
    Some(PartRules {
        count: count as u8,
        auto_end,
        active,
        terminate,
        verify,
    })
}
