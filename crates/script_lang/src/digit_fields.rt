//! Hexadecimal digits in either case: numbers, masks, half bytes and bytes.
ghost use Rattle.std.specs.Prelude.{◌≡◌, ◌≤◌, ◌<◌, ◌^◌, ◌*◌, ◌+◌, length, Err, IfSome};
ghost use Rattle.std.specs.Option.{option_map};
ghost use Rattle.script_lang.specs.declared.kinds.LineFault.TheVariants.{NoMemory};
ghost use Rattle.script_lang.specs.Words.{hex_value, hex_values};
ghost use Rattle.script_lang.specs.Memory.{has_bytes, ReadsBytes};
ghost use Rattle.script_lang.specs.Reading.{hex_number, hex_bytes, read_mask, read_uses, read_byte, read_nibble, read_nibbles, read_nibbles_or_dash, read_offset, read_table, where_decimal, read_bytes, read_block, Gives};

use crate::cutting::is;
use crate::kinds::LineFault;
use key_source::Mask;
use pad_steps::are_decimal;
use pad_words::{Block, Nibbles, Octets};
use std::alloc::Global;

/// The greatest number of bytes that one word spells.
pub const MOST_BYTES: usize = 1024;

// the value of a hexadecimal digit
fn hex_value(c: u8) -> Option<u8>
    ensures value { result ≡ hex_value c }
    ensures small { IfSome result (λ v. v < 16) }
{
    match c {
        b'0'..=b'9' => Some(c - b'0'),
        b'A'..=b'F' => Some(c - b'A' + 10),
        b'a'..=b'f' => Some(c - b'a' + 10),
        _ => None,
    }
}

// the number of at most eight hexadecimal digits
fn hex_number(word: &[u8]) -> Option<u32>
    requires { length word.now ≤ 8 }
    ensures value { result ≡ hex_number word.now }
    ensures small { IfSome result (λ n. n < 16 ^ length word.now) }
{
    let mut n = 0u64;
    for &c in word {
        let digit = hex_value(c)?;
        n = 16 * n + u64::from(digit);
    }
    Some(n as u32)
}

// sixteen hexadecimal digits: the key bits, and then the bits of the function keys
#[tactic(auto, unfolding(crate::specs::Reading::read_mask))]
pub fn read_mask(word: &[u8]) -> Option<Mask>
    ensures { result ≡ read_mask word.now }
{
    if word.len() == 16 {
        let keys = hex_number(&word[..8])?;
        let fdks = hex_number(&word[8..])?;
        Some(Mask { keys, fdks })
    } else {
        None
    }
}

// the uses of a key, four digits
#[tactic(auto, unfolding(crate::specs::Reading::read_uses))]
pub fn read_uses(word: &[u8]) -> Option<u16>
    ensures { result ≡ read_uses word.now }
{
    if word.len() == 4 {
        let uses = hex_number(word)?;
        Some(uses as u16)
    } else {
        None
    }
}

// one byte, two digits
#[tactic(auto, unfolding(crate::specs::Reading::read_byte))]
pub fn read_byte(word: &[u8]) -> Option<u8>
    ensures { result ≡ read_byte word.now }
{
    if word.len() == 2 {
        let byte = hex_number(word)?;
        Some(byte as u8)
    } else {
        None
    }
}

// one digit
#[tactic(auto, unfolding(crate::specs::Reading::read_nibble))]
pub fn read_nibble(word: &[u8]) -> Option<u8>
    ensures { result ≡ read_nibble word.now }
{
    if word.len() == 1 {
        hex_value(word[0])
    } else {
        None
    }
}

// the values of at most 48 digits
fn hex_values(word: &[u8]) -> Option<Nibbles>
    requires { length word.now ≤ 48 }
    ensures { result ≡ hex_values word.now }
{
    let mut values = Nibbles::empty();
    for &c in word {
        let value = hex_value(c)?;
        values.push(value);
    }
    Some(values)
}

// from low to high digits
#[tactic(auto, unfolding(crate::specs::Reading::read_nibbles))]
pub fn read_nibbles(low: usize, high: usize, word: &[u8]) -> Option<Nibbles>
    requires { high ≤ 48 }
    ensures { result ≡ read_nibbles low high word.now }
{
    if low <= word.len() && word.len() <= high {
        hex_values(word)
    } else {
        None
    }
}

// at most so many digits, or `-` for none
#[tactic(auto, unfolding(crate::specs::Reading::read_nibbles_or_dash))]
pub fn read_nibbles_or_dash(high: usize, word: &[u8]) -> Option<Nibbles>
    requires { high ≤ 48 }
    ensures { result ≡ read_nibbles_or_dash high word.now }
{
    if is(word, "-") {
        Some(Nibbles::empty())
    } else {
        read_nibbles(1, high, word)
    }
}

// the values, where all are decimal digits
fn where_decimal(values: Nibbles) -> Option<Nibbles>
    ensures { result ≡ where_decimal values }
{
    if are_decimal(values.items()) {
        Some(values)
    } else {
        None
    }
}

// sixteen decimal digits
#[tactic(auto, unfolding(crate::specs::Reading::read_table))]
pub fn read_table(word: &[u8]) -> Option<Nibbles>
    ensures { result ≡ read_table word.now }
{
    let values = read_nibbles(16, 16, word)?;
    where_decimal(values)
}

// at most sixteen decimal digits, or `-` for none
#[tactic(auto, unfolding(crate::specs::Reading::read_offset))]
pub fn read_offset(word: &[u8]) -> Option<Nibbles>
    ensures { result ≡ read_offset word.now }
{
    let values = read_nibbles_or_dash(16, word)?;
    where_decimal(values)
}

// the byte of two half bytes, the left one first
fn byte_of(left: u8, right: u8) -> u8
    requires { (left < 16) × (right < 16) }
    ensures { result ≡ 16 * left + right }
{
    16 * left + right
}

// fills the bytes from two digits each
fn fill_bytes(word: &[u8], bytes: &mut [u8]) -> Option<()>
    requires { length word.now ≡ 2 * length bytes.old }
    ensures { option_map (λ filled. bytes.new) result ≡ hex_bytes word.now }
{
    for i in 0..bytes.len() {
        let left = hex_value(word[2 * i])?;
        let right = hex_value(word[2 * i + 1])?;
        bytes[i] = byte_of(left, right);
    }
    Some(())
}

// from one to high bytes
#[tactic(auto, unfolding(crate::specs::Reading::read_bytes))]
pub fn read_bytes(alloc: Global, high: usize, word: &[u8]) -> Result<Octets, LineFault>
    requires { high ≤ 1024 }
    ensures given { Gives result (read_bytes 1 high word.now) }
    ensures memory { result ≡ Err NoMemory → ReadsBytes has_bytes (read_bytes 1 high word.now) }
{
    let count = word.len() / 2;
    if word.len() % 2 != 0 || count < 1 || high < count {
        return Err(LineFault::Outside);
    }
    let mut bytes = [0; MOST_BYTES];
    match fill_bytes(word, &mut bytes[..count]) {
        Some(()) => Octets::copy(alloc, &bytes[..count]).map_err(|_| LineFault::NoMemory),
        None => Err(LineFault::Outside),
    }
}

// eight bytes
#[tactic(auto, unfolding(crate::specs::Reading::read_block))]
pub fn read_block(word: &[u8]) -> Option<Block>
    ensures { result ≡ read_block word.now }
{
    if word.len() == 16 {
        let mut bytes = [0; 8];
        fill_bytes(word, &mut bytes)?;
        Some(Block(bytes))
    } else {
        None
    }
}
