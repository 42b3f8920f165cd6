//! The words of a command, a space before each. After want of memory a part of the text may stand.
ghost use Rattle.std.specs.Prelude.{◌≡◌, ◌++◌, ◌∷◌, ◌<◌, OnOk, IsTrue};
ghost use Rattle.pad_steps.specs.Formed.{is_pin_request, is_well_formed_command};
ghost use Rattle.script_lang.specs.Words.{end_text, spaced};
ghost use Rattle.script_lang.specs.Spelling.{rules_words, part_words, block_words, check_words, extra_words, pin_words, source_words, import_words, crypt_words, command_words};

use crate::kinds::{CommandVerb, SourceKind};
use crate::put_fields::{
    put_body, put_byte, put_bytes, put_figures, put_mask, put_name, put_nibble, put_nibbles,
    put_number, put_optional_block, put_optional_name, put_start, put_uses, put_word,
};
use crate::verb_fields::{command_verb_word, source_kind_word};
use crate::word_fields::{
    algorithm_word, direction_word, end_word, form_word, switch_word, verify_word, zero_word,
};
use pad_steps::{
    BlockRequest, CheckRequest, Command, CryptRequest, EntryRules, ExtraRequest, ImportRequest,
    ImportSource, PartRules, PinRequest,
};
use pad_words::{NoMemory, Octets};
use std::alloc::Global;

// a space, and `auto` or `hold`
fn put_end(auto_end: bool, text: &mut Octets) -> Result<(), NoMemory>
    ensures { OnOk result (text.new ≡ text.old ++ 32 ∷ end_text auto_end) }
{
    put_word(end_word(auto_end), text)
}

// the rules of an entry, a space before each word
fn put_rules(alloc: Global, rules: &EntryRules, text: &mut Octets) -> Result<(), NoMemory>
    ensures { OnOk result (text.new ≡ text.old ++ spaced (rules_words rules.now)) }
{
    put_number(alloc, u32::from(rules.min), text)?;
    put_number(alloc, u32::from(rules.max), text)?;
    put_end(rules.auto_end, text)?;
    put_mask(&rules.active, text)?;
    put_mask(&rules.terminate, text)
}

// what a PIN block is made of
fn put_block(request: &BlockRequest, text: &mut Octets) -> Result<(), NoMemory>
    requires { request.now.pad < 16 }
    ensures { OnOk result (text.new ≡ text.old ++ spaced (block_words request.now)) }
{
    put_word(form_word(request.form), text)?;
    put_name(&request.key, text)?;
    put_optional_name(&request.second, text)?;
    put_optional_block(&request.xor, text)?;
    put_nibbles(&request.customer, text)?;
    put_nibble(request.pad, text)
}

// where a key's value comes from
fn put_source(source: &ImportSource, text: &mut Octets) -> Result<(), NoMemory>
    ensures { OnOk result (text.new ≡ text.old ++ spaced (source_words source.now)) }
{
    match source {
        ImportSource::Clear(value) => {
            put_word(source_kind_word(SourceKind::Clear), text)?;
            put_bytes(value.items(), text)
        }
        ImportSource::Sealed(name, value) => {
            put_word(source_kind_word(SourceKind::Sealed), text)?;
            put_name(name, text)?;
            put_bytes(value.items(), text)
        }
        ImportSource::Part => put_word(source_kind_word(SourceKind::Part), text),
    }
}

// a key's name, where its value comes from, its uses and the check mode
fn put_import(request: &ImportRequest, text: &mut Octets) -> Result<(), NoMemory>
    ensures { OnOk result (text.new ≡ text.old ++ spaced (import_words request.now)) }
{
    put_name(&request.name, text)?;
    put_source(&request.source, text)?;
    put_uses(request.uses, text)?;
    put_word(verify_word(request.verify), text)
}

// the algorithm, the direction, the key, the start value, the padding byte and the bytes
fn put_crypt(request: &CryptRequest, text: &mut Octets) -> Result<(), NoMemory>
    ensures { OnOk result (text.new ≡ text.old ++ spaced (crypt_words request.now)) }
{
    put_word(algorithm_word(request.algorithm), text)?;
    put_word(direction_word(request.direction), text)?;
    put_name(&request.key, text)?;
    put_start(&request.start, text)?;
    put_byte(request.pad, text)?;
    put_body(&request.body, text)
}

// the rules of the entry of a key part
fn put_part(alloc: Global, rules: &PartRules, text: &mut Octets) -> Result<(), NoMemory>
    ensures { OnOk result (text.new ≡ text.old ++ spaced (part_words rules.now)) }
{
    put_number(alloc, u32::from(rules.count), text)?;
    put_end(rules.auto_end, text)?;
    put_mask(&rules.active, text)?;
    put_mask(&rules.terminate, text)?;
    put_word(verify_word(rules.verify), text)
}

// what a PIN is checked against
fn put_check(alloc: Global, request: &CheckRequest, text: &mut Octets) -> Result<(), NoMemory>
    requires { request.now.pad < 16 }
    ensures { OnOk result (text.new ≡ text.old ++ spaced (check_words request.now)) }
{
    put_name(&request.key, text)?;
    put_figures(&request.validation, text)?;
    put_nibble(request.pad, text)?;
    put_nibbles(&request.offset, text)?;
    put_number(alloc, u32::from(request.count), text)?;
    put_word(zero_word(request.no_zero), text)?;
    put_figures(&request.table, text)
}

// another PIN command: its kind, its key and its bytes
fn put_extra(alloc: Global, request: &ExtraRequest, text: &mut Octets) -> Result<(), NoMemory>
    ensures { OnOk result (text.new ≡ text.old ++ spaced (extra_words request.now)) }
{
    put_number(alloc, u32::from(request.kind), text)?;
    put_name(&request.key, text)?;
    put_body(&request.body, text)
}

// a PIN command
fn put_pin(alloc: Global, request: &PinRequest, text: &mut Octets) -> Result<(), NoMemory>
    requires { IsTrue (is_pin_request request.now) }
    ensures { OnOk result (text.new ≡ text.old ++ spaced (pin_words request.now)) }
{
    match request {
        PinRequest::Block(request) => {
            put_word(command_verb_word(CommandVerb::PinBlock), text)?;
            put_block(request, text)
        }
        PinRequest::Check(request) => {
            put_word(command_verb_word(CommandVerb::LocalDes), text)?;
            put_check(alloc, request, text)
        }
        PinRequest::Extra(request) => {
            put_word(command_verb_word(CommandVerb::Extra), text)?;
            put_extra(alloc, request, text)
        }
    }
}

// the command, a space before each word
pub fn put_command(alloc: Global, command: &Command, text: &mut Octets) -> Result<(), NoMemory>
    requires { IsTrue (is_well_formed_command command.now) }
    ensures { OnOk result (text.new ≡ text.old ++ spaced (command_words command.now)) }
{
    match command {
        Command::GetPin(rules) => {
            put_word(command_verb_word(CommandVerb::GetPin), text)?;
            put_rules(alloc, rules, text)
        }
        Command::GetData(rules) => {
            put_word(command_verb_word(CommandVerb::GetData), text)?;
            put_rules(alloc, rules, text)
        }
        Command::SecureKeyEntry(rules) => {
            put_word(command_verb_word(CommandVerb::KeyEntry), text)?;
            put_part(alloc, rules, text)
        }
        Command::MaintainPin(on) => {
            put_word(command_verb_word(CommandVerb::Maintain), text)?;
            put_word(switch_word(*on), text)
        }
        Command::Pin(request) => put_pin(alloc, request, text),
        Command::ImportKey(request) => {
            put_word(command_verb_word(CommandVerb::Import), text)?;
            put_import(request, text)
        }
        Command::Crypt(request) => {
            put_word(command_verb_word(CommandVerb::Crypt), text)?;
            put_crypt(request, text)
        }
        Command::DeleteKey(name) => {
            put_word(command_verb_word(CommandVerb::Delete), text)?;
            put_name(name, text)
        }
        Command::Init => put_word(command_verb_word(CommandVerb::Init), text),
        Command::Reset => put_word(command_verb_word(CommandVerb::Reset), text),
        Command::RsaImport => put_word(command_verb_word(CommandVerb::Rsa), text),
    }
}
