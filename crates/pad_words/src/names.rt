//! Names of keys.
ghost use Rattle.std.specs.Prelude.{◌≡◌, ◌↔◌, IsSome, IfSome, IsTrue};
ghost use Rattle.std.specs.List.{list_all};
ghost use Rattle.pad_words.specs.Names.{is_name_byte, is_key_name};

use arrayvec::ArrayVec;
use std::marker::Model;

/// A key's name: 1 to 32 of A to Z, 0 to 9 and _.
#[derive(Drop)]
pub struct KeyName {
    bytes: ArrayVec<u8, 32>,
}

impl Model for KeyName {
    ghost use Rattle.std.specs.Prelude.{ℕ, List, IsTrue};
    ghost use Rattle.pad_words.specs.Names.{is_key_name};

    ghost Value = { List ℕ };

    ghost view = { λ n. n.bytes.items };

    ghost invariant = { λ n. IsTrue (is_key_name n.bytes.items) };
}

impl KeyName {
    /// The name of these bytes. None where they are no name.
    pub fn read(text: &[u8]) -> Option<KeyName>
        ensures valid { IsSome result ↔ IsTrue (is_key_name text.now) }
        ensures value { IfSome result (λ n. n ≡ text.now) }
    {
        if text.is_empty() || !has_name_bytes(text) {
            return None;
        }
        match ArrayVec::try_from(text) {
            Ok(bytes) => Some(KeyName { bytes }),
            Err(_) => None,
        }
    }

    /// The name's bytes.
    pub fn text(&self) -> &[u8]
        ensures text { result.now ≡ self.now }
        ensures valid { IsTrue (is_key_name result.now) }
    {
        self.bytes.as_slice()
    }

    /// The same name again, without memory.
    pub fn copy(&self) -> KeyName
        ensures { result ≡ self.now }
    {
        match ArrayVec::try_from(self.bytes.as_slice()) {
            Ok(bytes) => KeyName { bytes },
            Err(_) => unreachable!(),
        }
    }
}

// whether each byte is one of A to Z, 0 to 9 and _
fn has_name_bytes(text: &[u8]) -> bool
    ensures { result ≡ list_all is_name_byte text.now }
{
    text.iter().all(|&c| c.is_ascii_uppercase() || c.is_ascii_digit() || c == b'_')
}
