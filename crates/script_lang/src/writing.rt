//! Words and steps put behind a text. After want of memory the text is as before.
ghost use Rattle.std.specs.Prelude.{◌≡◌, ◌<◌, ◌++◌, OnOk, OnErr, IfSome, IsTrue};
ghost use Rattle.std.specs.Option.{option_copied};
ghost use Rattle.std.specs.Fmt.{decimal};
ghost use Rattle.pad_steps.specs.Formed.{is_well_formed};
ghost use Rattle.key_source.specs.KeyWords.{key_text};
ghost use Rattle.script_lang.specs.Words.{classes_text, hex_digit};
ghost use Rattle.script_lang.specs.Spelling.{unless_masked, shown_text};

use crate::composing::put_shown;
use crate::word_fields::classes_word;
use key_source::Key;
use pad_steps::{Classes, Step};
use pad_words::{NoMemory, Octets};
use std::alloc::Global;

/// The hexadecimal digit of a half byte, in upper case.
pub fn hex_digit(value: u8) -> u8
    requires { value < 16 }
    ensures { result ≡ hex_digit value }
{
    if value < 10 {
        b'0' + value
    } else {
        b'A' + (value - 10)
    }
}

/// Puts this word last.
pub fn write_word(word: &str, text: &mut Octets) -> Result<(), NoMemory>
    ensures ok { OnOk result (text.new ≡ text.old ++ word.now) }
    ensures err { OnErr result (text.new ≡ text.old) }
{
    text.append(word.as_bytes())
}

/// Puts the number's decimal digits last.
pub fn write_number(alloc: Global, n: u32, text: &mut Octets) -> Result<(), NoMemory>
    ensures ok { OnOk result (text.new ≡ text.old ++ decimal n) }
    ensures err { OnErr result (text.new ≡ text.old) }
{
    match n.to_string(alloc) {
        Ok(digits) => write_word(digits.as_str(), text),
        Err(_) => Err(NoMemory),
    }
}

/// Puts the word of a key last, as a press has it. A key of a number that no key has is put as nothing.
pub fn write_key(key: Key, text: &mut Octets) -> Result<(), NoMemory>
    ensures ok { OnOk result (text.new ≡ text.old ++ key_text key) }
    ensures err { OnErr result (text.new ≡ text.old) }
{
    text.append(key.text().items())
}

/// Puts the word of the classes that a session hears last.
pub fn write_classes(classes: Classes, text: &mut Octets) -> Result<(), NoMemory>
    ensures ok { OnOk result (text.new ≡ text.old ++ classes_text classes) }
    ensures err { OnErr result (text.new ≡ text.old) }
{
    write_word(classes_word(classes), text)
}

/// The step as it is shown: none where it is masked, and so without its key.
pub fn shown_step(step: &Step, masked: bool) -> Option<&Step>
    ensures { option_copied result ≡ unless_masked masked step.now }
{
    if masked { None } else { Some(step) }
}

/// Puts the line of a shown step last, without a line feed: `press *` for none.
pub fn write_shown(alloc: Global, shown: Option<&Step>, text: &mut Octets) -> Result<(), NoMemory>
    requires { IfSome shown (λ step. IsTrue (is_well_formed step.now)) }
    ensures ok { OnOk result (text.new ≡ text.old ++ shown_text (option_copied shown.entry)) }
    ensures err { OnErr result (text.new ≡ text.old) }
{
    let mut line = Octets::empty(alloc);
    put_shown(alloc, shown, &mut line)?;
    text.append(line.items())
}

/// Puts the step's line last, without a line feed: `press *` where a press is masked.
pub fn write_step(
    alloc: Global,
    step: &Step,
    masked: bool,
    text: &mut Octets,
) -> Result<(), NoMemory>
    requires { IsTrue (is_well_formed step.now) }
    ensures ok { OnOk result (text.new ≡ text.old ++ shown_text (unless_masked masked step.now)) }
    ensures err { OnErr result (text.new ≡ text.old) }
{
    write_shown(alloc, shown_step(step, masked), text)
}
