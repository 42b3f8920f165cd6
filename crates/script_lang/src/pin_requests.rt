//! PIN commands behind their first word, to the line's end.
ghost use Rattle.std.specs.Prelude.{◌≡◌, Err};
ghost use Rattle.script_lang.specs.declared.kinds.LineFault.TheVariants.{NoMemory};
ghost use Rattle.script_lang.specs.Memory.{extra_holds_bytes, ReadsBytes};
ghost use Rattle.script_lang.specs.Reading.{read_check, read_extra, read_pinblock, Gives};

use crate::commands::present;
use crate::crypt_fields::read_body;
use crate::cutting::{ended, next_word};
use crate::digit_fields::{
    read_nibble, read_nibbles, read_nibbles_or_dash, read_offset, read_table,
};
use crate::fields::read_number;
use crate::kinds::LineFault;
use crate::name_fields::{read_name, read_optional_block, read_optional_name};
use crate::word_fields::{read_form, read_zero};
use pad_steps::{BlockRequest, CheckRequest, ExtraRequest};
use std::alloc::Global;

// what a PIN block is made of
#[tactic(auto, unfolding(crate::specs::Reading::read_pinblock))]
pub fn read_pinblock(rest: &[u8]) -> Option<BlockRequest>
    ensures { result ≡ read_pinblock rest.now }
{
    let (word, rest) = next_word(rest)?;
    let form = read_form(word)?;
    let (word, rest) = next_word(rest)?;
    let key = read_name(word)?;
    let (word, rest) = next_word(rest)?;
    let second = read_optional_name(word)?;
    let (word, rest) = next_word(rest)?;
    let xor = read_optional_block(word)?;
    let (word, rest) = next_word(rest)?;
    let customer = read_nibbles_or_dash(24, word)?;
    let (word, rest) = next_word(rest)?;
    let pad = read_nibble(word)?;
    ended(rest)?;
    Some(BlockRequest {
        form,
        key,
        second,
        xor,
        customer,
        pad,
    })
}

// what a PIN is checked against
#[tactic(auto, unfolding(crate::specs::Reading::read_check))]
pub fn read_check(rest: &[u8]) -> Option<CheckRequest>
    ensures { result ≡ read_check rest.now }
{
    let (word, rest) = next_word(rest)?;
    let key = read_name(word)?;
    let (word, rest) = next_word(rest)?;
    let validation = read_nibbles(1, 16, word)?;
    let (word, rest) = next_word(rest)?;
    let pad = read_nibble(word)?;
    let (word, rest) = next_word(rest)?;
    let offset = read_offset(word)?;
    let (word, rest) = next_word(rest)?;
    let count = read_number(0, 255, word)?;
    let (word, rest) = next_word(rest)?;
    let no_zero = read_zero(word)?;
    let (word, rest) = next_word(rest)?;
    let table = read_table(word)?;
    ended(rest)?;
    Some(CheckRequest {
        key,
        validation,
        pad,
        offset,
        count: count as u8,
        no_zero,
        table,
    })
}

// another PIN command: its kind, its key and its bytes, which are decoded once the line is at its end
#[tactic(auto, unfolding(crate::specs::Reading::read_extra))]
pub fn read_extra(alloc: Global, rest: &[u8]) -> Result<ExtraRequest, LineFault>
    ensures given { Gives result (read_extra rest.now) }
    ensures memory { result ≡ Err NoMemory → ReadsBytes extra_holds_bytes (read_extra rest.now) }
{
    let (word, rest) = present(next_word(rest))?;
    let kind = present(read_number(0, 255, word))?;
    let (word, rest) = present(next_word(rest))?;
    let key = present(read_name(word))?;
    let (word, rest) = present(next_word(rest))?;
    present(ended(rest))?;
    let body = read_body(alloc, word)?;
    Ok(ExtraRequest {
        kind: kind as u8,
        key,
        body,
    })
}
