//! The start value and the bytes of a crypt command.
ghost use Rattle.std.specs.Prelude.{◌≡◌, ◌≤◌, length, Err};
ghost use Rattle.script_lang.specs.declared.kinds.LineFault.TheVariants.{NoMemory};
ghost use Rattle.script_lang.specs.Memory.{has_bytes, ReadsBytes};
ghost use Rattle.script_lang.specs.Reading.{tag_len, read_start_block, read_start, read_body, Gives};

use crate::cutting::is;
use crate::digit_fields::{MOST_BYTES, read_block, read_bytes};
use crate::kinds::LineFault;
use crate::name_fields::read_name;
use pad_steps::Start;
use pad_words::Octets;
use std::alloc::Global;

// how many bytes stand before the first colon
fn tag_len(word: &[u8]) -> usize
    ensures exact { result ≡ tag_len word.now }
    ensures bound { result ≤ length word.now }
{
    word.iter().position(|&b| b == b':').unwrap_or(word.len())
}

// a block, or a block sealed under the key whose name stands before a colon
#[tactic(auto, unfolding(crate::specs::Reading::read_start_block))]
fn read_start_block(front: &[u8], behind: &[u8]) -> Option<Start>
    ensures { result ≡ read_start_block front.now behind.now }
{
    match behind {
        [] => {
            let block = read_block(front)?;
            Some(Start::Clear(block))
        }
        [_, digits @ ..] => {
            let name = read_name(front)?;
            let block = read_block(digits)?;
            Some(Start::Sealed(name, block))
        }
    }
}

// a start value, or `-` for zeros
#[tactic(auto, unfolding(crate::specs::Reading::read_start))]
pub fn read_start(word: &[u8]) -> Option<Start>
    ensures { result ≡ read_start word.now }
{
    if is(word, "-") {
        Some(Start::Zero)
    } else {
        let (front, behind) = word.split_at(tag_len(word));
        read_start_block(front, behind)
    }
}

// at most 1,024 bytes, or `-` for none
#[tactic(auto, unfolding(crate::specs::Reading::read_body))]
pub fn read_body(alloc: Global, word: &[u8]) -> Result<Octets, LineFault>
    ensures given { Gives result (read_body word.now) }
    ensures memory { result ≡ Err NoMemory → ReadsBytes has_bytes (read_body word.now) }
{
    if is(word, "-") {
        Ok(Octets::empty(alloc))
    } else {
        read_bytes(alloc, MOST_BYTES, word)
    }
}
