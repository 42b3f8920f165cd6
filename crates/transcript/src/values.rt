//! Small values put behind a text.
ghost use Rattle.std.specs.Prelude.{◌≡◌, ◌<◌, ◌++◌, All, map, OnOk};
ghost use Rattle.std.specs.Fmt.{decimal};
ghost use Rattle.hex.specs.Hex.{encode_upper};
ghost use Rattle.script_lang.specs.Words.{hex_digit};
ghost use Rattle.transcript.specs.Values.{yes_no_text, digits_text, check_text};

use pad_words::{NoMemory, Octets, Session};
use script_lang::writing::{hex_digit, write_number, write_word};
use std::alloc::Global;

pub fn put_session(alloc: Global, session: &Session, text: &mut Octets) -> Result<(), NoMemory>
    ensures { OnOk result (text.new ≡ text.old ++ decimal session.now.number) }
{
    write_number(alloc, u32::from(session.get()), text)
}

pub fn put_count(alloc: Global, count: usize, text: &mut Octets) -> Result<(), NoMemory>
    ensures { OnOk result (text.new ≡ text.old ++ decimal count) }
{
    match count.to_string(alloc) {
        Ok(digits) => write_word(digits.as_str(), text),
        Err(_) => Err(NoMemory),
    }
}

#[tactic(auto, unfolding(crate::specs::Values::yes_no_text))]
pub fn put_yes_no(yes: bool, text: &mut Octets) -> Result<(), NoMemory>
    ensures { OnOk result (text.new ≡ text.old ++ yes_no_text yes) }
{
    write_word(if yes { "yes" } else { "no" }, text)
}

#[tactic(auto, unfolding(crate::specs::Values::digits_text))]
pub fn put_digits(digits: &[u8], text: &mut Octets) -> Result<(), NoMemory>
    requires { All (λ value. value < 16) digits.now }
    ensures { OnOk result (text.new ≡ text.old ++ digits_text digits.now) }
{
    if digits.is_empty() {
        return write_word("-", text);
    }
    for value in digits {
        text.push(hex_digit(*value))?;
    }
    Ok(())
}

/// Puts two digits for each byte.
pub fn put_bytes(alloc: Global, bytes: &[u8], text: &mut Octets) -> Result<(), NoMemory>
    ensures { OnOk result (text.new ≡ text.old ++ encode_upper bytes.now) }
{
    match hex::encode_upper(alloc, bytes) {
        Ok(digits) => write_word(digits.as_str(), text),
        Err(_) => Err(NoMemory),
    }
}

#[tactic(auto, unfolding(crate::specs::Values::check_text))]
pub fn put_check(alloc: Global, check: &Option<[u8; 3]>, text: &mut Octets) -> Result<(), NoMemory>
    ensures { OnOk result (text.new ≡ text.old ++ check_text check.now) }
{
    match check {
        Some(check) => put_bytes(alloc, check, text),
        None => write_word("-", text),
    }
}
