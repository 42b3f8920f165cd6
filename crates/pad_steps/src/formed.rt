//! What form steps and commands have. What a type says already is not asked again: it is in the contracts alone.
ghost use Rattle.std.specs.Prelude.{◌≡◌, ◌&&◌, length, nat_le, nat_lt};
ghost use Rattle.pad_words.specs.Names.{is_key_name};
ghost use Rattle.pad_steps.specs.Accounts.{all_decimal};
ghost use Rattle.key_source.specs.Keys.{is_key};
ghost use Rattle.pad_steps.specs.Formed.{all_bytes, all_nibbles, is_block, is_block_request, is_body, is_check_request, is_crypt_request, is_entry, is_extra_request, is_import_request, is_mask, is_optional_block, is_optional_name, is_part_entry, is_pin_request, is_question, is_source, is_start, is_value, is_well_formed, is_well_formed_command, is_word};

use crate::accounts::are_decimal;
use crate::commands::{
    BlockRequest, CheckRequest, Command, CryptRequest, EntryRules, ExtraRequest, ImportRequest,
    ImportSource, PartRules, PinRequest, Start,
};
use crate::steps::{Question, Step};
use key_source::{Key, Mask};
use pad_words::{Block, KeyName};

// a name: its type says what a name may be
fn is_named(name: &KeyName) -> bool
    ensures { result ≡ is_key_name name.now }
{
    !name.text().is_empty()
}

// a name, or none
fn is_optional_name(name: &Option<KeyName>) -> bool
    ensures { result ≡ is_optional_name name.now }
{
    match name {
        Some(name) => is_named(name),
        None => true,
    }
}

// bytes: their type says what a byte may be
fn are_bytes(values: &[u8]) -> bool
    ensures { result ≡ all_bytes values.now }
{
    let _ = values;
    true
}

// each is below 16
fn are_nibbles(values: &[u8]) -> bool
    ensures { result ≡ all_nibbles values.now }
{
    values.iter().all(|&value| value < 16)
}

// a byte: its type says so
fn is_byte(value: u8) -> bool
    ensures { result ≡ nat_lt value 256 }
{
    let _ = value;
    true
}

// 16 bits: its type says so
fn is_uses_word(value: u16) -> bool
    ensures { result ≡ nat_lt value 65536 }
{
    let _ = value;
    true
}

// 32 bits: its type says so
fn is_word(value: u32) -> bool
    ensures { result ≡ is_word value }
{
    let _ = value;
    true
}

fn is_mask(mask: &Mask) -> bool
    ensures { result ≡ is_mask mask.now }
{
    is_word(mask.keys) && is_word(mask.fdks)
}

fn is_entry(rules: &EntryRules) -> bool
    ensures { result ≡ is_entry rules.now }
{
    is_byte(rules.min) && is_byte(rules.max) && is_mask(&rules.active) && is_mask(&rules.terminate)
}

fn is_part_entry(rules: &PartRules) -> bool
    ensures { result ≡ is_part_entry rules.now }
{
    is_byte(rules.count) && is_mask(&rules.active) && is_mask(&rules.terminate)
}

// eight bytes: its type says so
fn is_block(block: &Block) -> bool
    ensures { result ≡ is_block block.now }
{
    are_bytes(&block.0)
}

fn is_optional_block(block: &Option<Block>) -> bool
    ensures { result ≡ is_optional_block block.now }
{
    match block {
        Some(block) => is_block(block),
        None => true,
    }
}

// at most 24 nibbles of customer data
fn is_block_request(request: &BlockRequest) -> bool
    ensures { result ≡ is_block_request request.now }
{
    is_named(&request.key)
        && is_optional_name(&request.second)
        && is_optional_block(&request.xor)
        && request.customer.items().len() <= 24
        && are_nibbles(request.customer.items())
        && request.pad <= 15
}

// 1 to 16 nibbles
fn is_validation(values: &[u8]) -> bool
    ensures { result ≡ nat_le 1 (length values.now) && nat_le (length values.now) 16 && all_nibbles values.now }
{
    !values.is_empty() && values.len() <= 16 && are_nibbles(values)
}

// at most 16 decimal digits
fn is_offset(values: &[u8]) -> bool
    ensures { result ≡ nat_le (length values.now) 16 && all_decimal values.now }
{
    values.len() <= 16 && are_decimal(values)
}

fn is_check_request(request: &CheckRequest) -> bool
    ensures { result ≡ is_check_request request.now }
{
    is_named(&request.key)
        && is_validation(request.validation.items())
        && request.pad <= 15
        && is_offset(request.offset.items())
        && is_byte(request.count)
        && request.table.items().len() == 16
        && are_decimal(request.table.items())
}

// at most 1,024 bytes
fn is_body(values: &[u8]) -> bool
    ensures { result ≡ is_body values.now }
{
    values.len() <= 1024 && are_bytes(values)
}

fn is_extra_request(request: &ExtraRequest) -> bool
    ensures { result ≡ is_extra_request request.now }
{
    is_byte(request.kind) && is_named(&request.key) && is_body(request.body.items())
}

fn is_pin_request(request: &PinRequest) -> bool
    ensures { result ≡ is_pin_request request.now }
{
    match request {
        PinRequest::Block(request) => is_block_request(request),
        PinRequest::Check(request) => is_check_request(request),
        PinRequest::Extra(request) => is_extra_request(request),
    }
}

// none, or a block in clear or sealed under a key
fn is_start(start: &Start) -> bool
    ensures { result ≡ is_start start.now }
{
    match start {
        Start::Zero => true,
        Start::Clear(block) => is_block(block),
        Start::Sealed(name, block) => is_named(name) && is_block(block),
    }
}

// any algorithm, start value and padding byte, and at most 1,024 bytes
fn is_crypt_request(request: &CryptRequest) -> bool
    ensures { result ≡ is_crypt_request request.now }
{
    is_named(&request.key)
        && is_start(&request.start)
        && is_byte(request.pad)
        && is_body(request.body.items())
}

// 1 to 64 bytes
fn is_value(values: &[u8]) -> bool
    ensures { result ≡ is_value values.now }
{
    !values.is_empty() && values.len() <= 64 && are_bytes(values)
}

fn is_source(source: &ImportSource) -> bool
    ensures { result ≡ is_source source.now }
{
    match source {
        ImportSource::Clear(value) => is_value(value.items()),
        ImportSource::Sealed(name, value) => is_named(name) && is_value(value.items()),
        ImportSource::Part => true,
    }
}

fn is_import_request(request: &ImportRequest) -> bool
    ensures { result ≡ is_import_request request.now }
{
    is_named(&request.name) && is_source(&request.source) && is_uses_word(request.uses)
}

// a key that the pad can have
fn is_key(key: &Key) -> bool
    ensures { result ≡ is_key key.now }
{
    match key {
        Key::Hex(value) => 10 <= *value && *value <= 15,
        Key::Fdk(number) => 1 <= *number && *number <= 32,
        _ => true,
    }
}

fn is_question(question: &Question) -> bool
    ensures { result ≡ is_question question.now }
{
    match question {
        Question::Key(name) => is_named(name),
        Question::Reply(id) => is_word(*id),
        Question::Status | Question::Names => true,
    }
}

impl Command {
    /// Whether the command has the form that a line of the script can spell.
    pub fn is_well_formed(&self) -> bool
        ensures { result ≡ is_well_formed_command self.now }
    {
        match self {
            Command::GetPin(rules) | Command::GetData(rules) => is_entry(rules),
            Command::SecureKeyEntry(rules) => is_part_entry(rules),
            Command::Pin(request) => is_pin_request(request),
            Command::Crypt(request) => is_crypt_request(request),
            Command::ImportKey(request) => is_import_request(request),
            Command::DeleteKey(name) => is_named(name),
            Command::MaintainPin(_) | Command::Init | Command::Reset | Command::RsaImport => true,
        }
    }
}

impl Step {
    /// Whether the step has the form that a line of the script can spell: a limit of at most 1,000,000 ticks, a tick of
    /// 1 to 1,000,000, and commands, keys and questions in their forms.
    pub fn is_well_formed(&self) -> bool
        ensures { result ≡ is_well_formed self.now }
    {
        match self {
            Step::Submit(_, limit, command) => *limit <= 1_000_000 && command.is_well_formed(),
            Step::Cancel(_, id) => is_word(*id),
            Step::Press(key) => is_key(key),
            Step::Tick(ticks) => 1 <= *ticks && *ticks <= 1_000_000,
            Step::Ask(_, question) => is_question(question),
            _ => true,
        }
    }
}
