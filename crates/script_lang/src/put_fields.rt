//! The words of a step's line, a space before each. After want of memory a part of the text may stand.
ghost use Rattle.std.specs.Prelude.{◌≡◌, ◌++◌, ◌∷◌, ◌<◌, All, map, OnOk};
ghost use Rattle.std.specs.Fmt.{decimal};
ghost use Rattle.pad_words.specs.Bytes.{unpacked};
ghost use Rattle.script_lang.specs.Words.{hex_digit, word_text, Digits};
ghost use Rattle.script_lang.specs.Spelling.{four_values, mask_word, name_word, optional_word, bytes_word, block_word, nibble_word, nibbles_word, uses_word, start_word, byte_word, body_word};

use crate::writing::{hex_digit, write_number, write_word};
use key_source::Mask;
use pad_steps::Start;
use pad_words::{Block, KeyName, Nibbles, NoMemory, Octets, Session};
use std::alloc::Global;

// a space, and the number
pub fn put_number(alloc: Global, n: u32, text: &mut Octets) -> Result<(), NoMemory>
    ensures { OnOk result (text.new ≡ text.old ++ 32 ∷ decimal n) }
{
    text.push(b' ')?;
    write_number(alloc, n, text)
}

// a space, and the session's number
pub fn put_session(alloc: Global, session: &Session, text: &mut Octets) -> Result<(), NoMemory>
    ensures { OnOk result (text.new ≡ text.old ++ 32 ∷ decimal session.now.number) }
{
    put_number(alloc, u32::from(session.get()), text)
}

// the four hexadecimal digits of a number of 16 bits
fn put_four_digits(n: u32, text: &mut Octets) -> Result<(), NoMemory>
    requires { n < 65536 }
    ensures { OnOk result (text.new ≡ text.old ++ map hex_digit (four_values n)) }
{
    text.push(hex_digit((n / 4096) as u8))?;
    text.push(hex_digit((n / 256 % 16) as u8))?;
    text.push(hex_digit((n / 16 % 16) as u8))?;
    text.push(hex_digit((n % 16) as u8))
}

// a space, and the mask
#[tactic(auto, unfolding(crate::specs::Spelling::mask_values))]
pub fn put_mask(mask: &Mask, text: &mut Octets) -> Result<(), NoMemory>
    ensures { OnOk result (text.new ≡ text.old ++ 32 ∷ word_text (mask_word mask.now)) }
{
    text.push(b' ')?;
    put_four_digits(mask.keys / 65536, text)?;
    put_four_digits(mask.keys % 65536, text)?;
    put_four_digits(mask.fdks / 65536, text)?;
    put_four_digits(mask.fdks % 65536, text)?;
    Ok(())
}

// a space, and this word
pub fn put_word(word: &str, text: &mut Octets) -> Result<(), NoMemory>
    ensures { OnOk result (text.new ≡ text.old ++ 32 ∷ word.now) }
{
    text.push(b' ')?;
    write_word(word, text)
}

// a space, and the name
pub fn put_name(name: &KeyName, text: &mut Octets) -> Result<(), NoMemory>
    ensures { OnOk result (text.new ≡ text.old ++ 32 ∷ name.now) }
{
    text.push(b' ')?;
    text.append(name.text())
}

// a space, and the name or `-`
pub fn put_optional_name(name: &Option<KeyName>, text: &mut Octets) -> Result<(), NoMemory>
    ensures { OnOk result (text.new ≡ text.old ++ 32 ∷ word_text (optional_word name_word name.now)) }
{
    match name {
        Some(name) => put_name(name, text),
        None => write_word(" -", text),
    }
}

// two digits for each byte
fn put_byte_digits(bytes: &[u8], text: &mut Octets) -> Result<(), NoMemory>
    ensures { OnOk result (text.new ≡ text.old ++ map hex_digit (unpacked bytes.now)) }
{
    for byte in bytes {
        text.push(hex_digit(*byte / 16))?;
        text.push(hex_digit(*byte % 16))?;
    }
    Ok(())
}

// a space, and two digits for each byte
pub fn put_bytes(bytes: &[u8], text: &mut Octets) -> Result<(), NoMemory>
    ensures { OnOk result (text.new ≡ text.old ++ 32 ∷ word_text (bytes_word bytes.now)) }
{
    text.push(b' ')?;
    put_byte_digits(bytes, text)
}

// a space, and the block or `-`
pub fn put_optional_block(block: &Option<Block>, text: &mut Octets) -> Result<(), NoMemory>
    ensures { OnOk result (text.new ≡ text.old ++ 32 ∷ word_text (optional_word block_word block.now)) }
{
    match block {
        Some(block) => put_bytes(&block.0, text),
        None => write_word(" -", text),
    }
}

// a space, and one digit
pub fn put_nibble(value: u8, text: &mut Octets) -> Result<(), NoMemory>
    requires { value < 16 }
    ensures { OnOk result (text.new ≡ text.old ++ 32 ∷ word_text (nibble_word value)) }
{
    text.push(b' ')?;
    text.push(hex_digit(value))
}

// a digit for each value
fn put_digits(values: &[u8], text: &mut Octets) -> Result<(), NoMemory>
    requires { All (λ value. value < 16) values.now }
    ensures { OnOk result (text.new ≡ text.old ++ map hex_digit values.now) }
{
    for value in values {
        text.push(hex_digit(*value))?;
    }
    Ok(())
}

// a space, and a digit for each value
pub fn put_figures(values: &Nibbles, text: &mut Octets) -> Result<(), NoMemory>
    ensures { OnOk result (text.new ≡ text.old ++ 32 ∷ word_text (Digits values.now)) }
{
    text.push(b' ')?;
    put_digits(values.items(), text)
}

// a space, and a digit for each value, or `-` where there is none
pub fn put_nibbles(values: &Nibbles, text: &mut Octets) -> Result<(), NoMemory>
    ensures { OnOk result (text.new ≡ text.old ++ 32 ∷ word_text (nibbles_word values.now)) }
{
    match values.items() {
        [] => write_word(" -", text),
        _ => put_figures(values, text),
    }
}

// a space, and the four digits of a key's uses
pub fn put_uses(uses: u16, text: &mut Octets) -> Result<(), NoMemory>
    ensures { OnOk result (text.new ≡ text.old ++ 32 ∷ word_text (uses_word uses)) }
{
    text.push(b' ')?;
    put_four_digits(u32::from(uses), text)
}

// a space, and two digits
pub fn put_byte(byte: u8, text: &mut Octets) -> Result<(), NoMemory>
    ensures { OnOk result (text.new ≡ text.old ++ 32 ∷ word_text (byte_word byte)) }
{
    text.push(b' ')?;
    text.push(hex_digit(byte / 16))?;
    text.push(hex_digit(byte % 16))
}

// a space, and two digits for each byte, or `-` where there is none
pub fn put_body(body: &Octets, text: &mut Octets) -> Result<(), NoMemory>
    ensures { OnOk result (text.new ≡ text.old ++ 32 ∷ word_text (body_word body.now)) }
{
    match body.items() {
        [] => write_word(" -", text),
        bytes => put_bytes(bytes, text),
    }
}

// a space, and the start value: `-`, a block, or a name, a colon and a block
pub fn put_start(start: &Start, text: &mut Octets) -> Result<(), NoMemory>
    ensures { OnOk result (text.new ≡ text.old ++ 32 ∷ word_text (start_word start.now)) }
{
    match start {
        Start::Zero => write_word(" -", text),
        Start::Clear(block) => put_bytes(&block.0, text),
        Start::Sealed(name, block) => {
            put_name(name, text)?;
            text.push(b':')?;
            put_byte_digits(&block.0, text)
        }
    }
}
