//! Names of keys, and fields that may be `-` for none.
ghost use Rattle.std.specs.Prelude.{◌≡◌};
ghost use Rattle.script_lang.specs.Reading.{read_name, read_block, read_optional};

use crate::cutting::is;
use crate::digit_fields::read_block;
use pad_words::{Block, KeyName};

// a key's name
#[tactic(auto, unfolding(crate::specs::Reading::read_name))]
pub fn read_name(word: &[u8]) -> Option<KeyName>
    ensures { result ≡ read_name word.now }
{
    KeyName::read(word)
}

// a key's name, or `-` for none
pub fn read_optional_name(word: &[u8]) -> Option<Option<KeyName>>
    ensures { result ≡ read_optional read_name word.now }
{
    if is(word, "-") {
        Some(None)
    } else {
        let name = read_name(word)?;
        Some(Some(name))
    }
}

// eight bytes, or `-` for none
pub fn read_optional_block(word: &[u8]) -> Option<Option<Block>>
    ensures { result ≡ read_optional read_block word.now }
{
    if is(word, "-") {
        Some(None)
    } else {
        let block = read_block(word)?;
        Some(Some(block))
    }
}
