//! Commands read from left to right, to the line's end.
ghost use Rattle.std.specs.Prelude.{◌≡◌, Err};
ghost use Rattle.script_lang.specs.declared.kinds.LineFault.TheVariants.{NoMemory};
ghost use Rattle.script_lang.specs.Memory.{command_holds_bytes, crypt_holds_bytes, import_holds_bytes, ReadsBytes};
ghost use Rattle.script_lang.specs.Reading.{command_after, ended, import_of, read_command, read_crypt, read_import, read_only_name, read_only_switch, read_usage, source_after, Gives};

use crate::crypt_fields::{read_body, read_start};
use crate::cutting::{ended, next_word};
use crate::digit_fields::{read_byte, read_bytes, read_uses};
use crate::entry_rules::{read_part, read_rules};
use crate::kinds::{CommandVerb, LineFault, SourceKind};
use crate::name_fields::read_name;
use crate::pin_requests::{read_check, read_extra, read_pinblock};
use crate::verb_fields::{read_command_verb, read_source_kind};
use crate::word_fields::{read_algorithm, read_direction, read_switch, read_verify};
use pad_steps::{Command, CryptRequest, ImportRequest, ImportSource, PinRequest, Verify};
use pad_words::KeyName;
use std::alloc::Global;

/// The greatest number of bytes of a key's value.
const MOST_KEY_BYTES: usize = 64;

// what is not there is outside the grammar; no memory is taken
pub fn present<T: Drop>(found: Option<T>) -> Result<T, LineFault>
    ensures given { Gives result found }
    ensures memory { result ≡ Err NoMemory → ⊥ }
{
    match found {
        Some(value) => Ok(value),
        None => Err(LineFault::Outside),
    }
}

// this value, where no byte is left
pub fn at_end<T: Drop>(rest: &[u8], value: T) -> Result<T, LineFault>
    ensures given { Gives result (ended value rest.now) }
    ensures memory { result ≡ Err NoMemory → ⊥ }
{
    if rest.is_empty() {
        Ok(value)
    } else {
        Err(LineFault::Outside)
    }
}

// a key's name, to the line's end
#[tactic(auto, unfolding(crate::specs::Reading::read_only_name))]
fn read_only_name(rest: &[u8]) -> Option<KeyName>
    ensures { result ≡ read_only_name rest.now }
{
    let (word, rest) = next_word(rest)?;
    let name = read_name(word)?;
    ended(rest)?;
    Some(name)
}

// whether the PIN is kept, to the line's end
#[tactic(auto, unfolding(crate::specs::Reading::read_only_switch))]
fn read_only_switch(rest: &[u8]) -> Option<bool>
    ensures { result ≡ read_only_switch rest.now }
{
    let (word, rest) = next_word(rest)?;
    let on = read_switch(word)?;
    ended(rest)?;
    Some(on)
}

// the uses and the check mode behind a source
#[tactic(auto, unfolding(crate::specs::Reading::read_usage))]
fn read_usage(rest: &[u8]) -> Option<(u16, Verify)>
    ensures { result ≡ read_usage rest.now }
{
    let (word, rest) = next_word(rest)?;
    let uses = read_uses(word)?;
    let (word, rest) = next_word(rest)?;
    let verify = read_verify(word)?;
    ended(rest)?;
    Some((uses, verify))
}

// the import of this name from this source, with its uses and its check mode
fn import_of(name: KeyName, source: ImportSource, usage: (u16, Verify)) -> ImportRequest
    ensures { result ≡ import_of name source usage }
{
    let (uses, verify) = usage;
    ImportRequest {
        name,
        source,
        uses,
        verify,
    }
}

// the import of this name behind the first word of its source; its value is decoded last
#[tactic(auto, using(crate::proofs::MemoryLaws::sourced_is))]
fn read_import_row(
    alloc: Global,
    name: KeyName,
    kind: SourceKind,
    rest: &[u8],
) -> Result<ImportRequest, LineFault>
    ensures given { Gives result (source_after name kind rest.now) }
    ensures memory { result ≡ Err NoMemory →
        ReadsBytes import_holds_bytes (source_after name kind rest.now) }
{
    match kind {
        SourceKind::Clear => {
            let (word, rest) = present(next_word(rest))?;
            let usage = present(read_usage(rest))?;
            let value = read_bytes(alloc, MOST_KEY_BYTES, word)?;
            Ok(import_of(name, ImportSource::Clear(value), usage))
        }
        SourceKind::Sealed => {
            let (word, rest) = present(next_word(rest))?;
            let key = present(read_name(word))?;
            let (word, rest) = present(next_word(rest))?;
            let usage = present(read_usage(rest))?;
            let value = read_bytes(alloc, MOST_KEY_BYTES, word)?;
            Ok(import_of(name, ImportSource::Sealed(key, value), usage))
        }
        SourceKind::Part => {
            let usage = present(read_usage(rest))?;
            Ok(import_of(name, ImportSource::Part, usage))
        }
    }
}

// the import of a key: its name, where its value comes from, its uses and the check mode
#[tactic(auto, unfolding(crate::specs::Reading::read_import))]
fn read_import(alloc: Global, rest: &[u8]) -> Result<ImportRequest, LineFault>
    ensures given { Gives result (read_import rest.now) }
    ensures memory { result ≡ Err NoMemory → ReadsBytes import_holds_bytes (read_import rest.now) }
{
    let (word, rest) = present(next_word(rest))?;
    let name = present(read_name(word))?;
    let (word, rest) = present(next_word(rest))?;
    let kind = present(read_source_kind(word))?;
    read_import_row(alloc, name, kind, rest)
}

// what is to be encrypted, decrypted or authenticated, and how; its bytes are decoded last
#[tactic(auto, unfolding(crate::specs::Reading::read_crypt))]
fn read_crypt(alloc: Global, rest: &[u8]) -> Result<CryptRequest, LineFault>
    ensures given { Gives result (read_crypt rest.now) }
    ensures memory { result ≡ Err NoMemory → ReadsBytes crypt_holds_bytes (read_crypt rest.now) }
{
    let (word, rest) = present(next_word(rest))?;
    let algorithm = present(read_algorithm(word))?;
    let (word, rest) = present(next_word(rest))?;
    let direction = present(read_direction(word))?;
    let (word, rest) = present(next_word(rest))?;
    let key = present(read_name(word))?;
    let (word, rest) = present(next_word(rest))?;
    let start = present(read_start(word))?;
    let (word, rest) = present(next_word(rest))?;
    let pad = present(read_byte(word))?;
    let (word, rest) = present(next_word(rest))?;
    present(ended(rest))?;
    let body = read_body(alloc, word)?;
    Ok(CryptRequest {
        algorithm,
        direction,
        key,
        start,
        pad,
        body,
    })
}

// the command that begins with this verb
fn read_command_row(alloc: Global, verb: CommandVerb, rest: &[u8]) -> Result<Command, LineFault>
    ensures given { Gives result (command_after verb rest.now) }
    ensures memory { result ≡ Err NoMemory →
        ReadsBytes command_holds_bytes (command_after verb rest.now) }
{
    match verb {
        CommandVerb::GetPin => Ok(Command::GetPin(present(read_rules(rest))?)),
        CommandVerb::GetData => Ok(Command::GetData(present(read_rules(rest))?)),
        CommandVerb::KeyEntry => Ok(Command::SecureKeyEntry(present(read_part(rest))?)),
        CommandVerb::Maintain => Ok(Command::MaintainPin(present(read_only_switch(rest))?)),
        CommandVerb::PinBlock => {
            let request = present(read_pinblock(rest))?;
            Ok(Command::Pin(PinRequest::Block(request)))
        }
        CommandVerb::LocalDes => {
            let request = present(read_check(rest))?;
            Ok(Command::Pin(PinRequest::Check(request)))
        }
        CommandVerb::Extra => {
            let request = read_extra(alloc, rest)?;
            Ok(Command::Pin(PinRequest::Extra(request)))
        }
        CommandVerb::Import => Ok(Command::ImportKey(read_import(alloc, rest)?)),
        CommandVerb::Crypt => Ok(Command::Crypt(read_crypt(alloc, rest)?)),
        CommandVerb::Delete => Ok(Command::DeleteKey(present(read_only_name(rest))?)),
        CommandVerb::Init => at_end(rest, Command::Init),
        CommandVerb::Reset => at_end(rest, Command::Reset),
        CommandVerb::Rsa => at_end(rest, Command::RsaImport),
    }
}

// the command that begins with the next word
#[tactic(auto, unfolding(crate::specs::Reading::read_command))]
pub fn read_command(alloc: Global, rest: &[u8]) -> Result<Command, LineFault>
    ensures given { Gives result (read_command rest.now) }
    ensures memory { result ≡ Err NoMemory → ReadsBytes command_holds_bytes (read_command rest.now) }
{
    let (word, rest) = present(next_word(rest))?;
    let verb = present(read_command_verb(word))?;
    read_command_row(alloc, verb, rest)
}
