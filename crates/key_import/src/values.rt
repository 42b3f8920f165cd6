//! Key values that are unsealed and joined.
ghost use Rattle.std.specs.Prelude.{◌≡◌, IfSome, IsTrue, length};
ghost use Rattle.std.specs.Option.{option_copied};
ghost use Rattle.des_core.specs.TripleDes.{tdea_back_bytes};
ghost use Rattle.key_import.specs.Imports.{joined, unsealed};
ghost use Rattle.pad_words.specs.KeyLengths.{is_key_length};

use arrayvec::ArrayVec;
use cbc_mac::ecb;
use check_values::cipher_of;
use key_attributes::{KeyRow, KeyValue};
use pad_words::{Direction, exclusive_or};

/// The greatest number of bytes of a key.
const MOST_KEY_BYTES: usize = 24;

/// The value of these bytes, decrypted by ECB under the key-encrypting key where there is one.
pub fn unsealed(kek: Option<&KeyValue>, bytes: &[u8]) -> KeyValue
    requires { IsTrue (is_key_length (length bytes.now)) }
    ensures value { result ≡ unsealed tdea_back_bytes (option_copied kek.entry) bytes.now }
    ensures length { length result ≡ length bytes.now }
{
    let mut value = buffer(bytes);
    if let Some(kek) = kek {
        ecb(&cipher_of(kek), Direction::Decrypt, value.as_mut_slice());
    }
    key_value(value.as_slice())
}

/// The value joined by XOR with that of the key under construction, if there is one, which has the same length.
pub fn joined(old: Option<&KeyRow>, value: KeyValue) -> KeyValue
    requires { IfSome old (λ row. length row.now.value ≡ length value) }
    ensures { result ≡ joined (option_copied old.entry) value }
{
    let Some(old) = old else {
        return value;
    };
    let mut bytes = buffer(value.bytes());
    exclusive_or(bytes.as_mut_slice(), old.value.bytes());
    key_value(bytes.as_slice())
}

// A copy of the bytes of a key.
fn buffer(bytes: &[u8]) -> ArrayVec<u8, MOST_KEY_BYTES>
    requires { IsTrue (is_key_length (length bytes.now)) }
    ensures { result.items ≡ bytes.now }
{
    match ArrayVec::try_from(bytes) {
        Ok(copy) => copy,
        Err(_) => unreachable!(),
    }
}

// The key value of 8, 16 or 24 bytes.
fn key_value(bytes: &[u8]) -> KeyValue
    requires { IsTrue (is_key_length (length bytes.now)) }
    ensures { result ≡ bytes.now }
{
    match KeyValue::new(bytes) {
        Some(value) => value,
        None => unreachable!(),
    }
}
