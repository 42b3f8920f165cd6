//! The nibbles of an entered key part.
ghost use Rattle.std.specs.Prelude.{◌≡◌, ◌<◌, ◌*◌, ◌/◌, ◌%◌, ◌≤◌, [], All, IsTrue, length};
ghost use Rattle.pad_words.specs.Bytes.{packed};
ghost use Rattle.secure_entry.specs.PartBuffers.{is_part_length, part_value};

use arrayvec::ArrayVec;
use key_attributes::KeyValue;
use pad_words::Nibbles;
use std::marker::Model;

/// An entered key part of 16, 32 or 48 nibbles, or none.
#[derive(Drop)]
pub struct PartBuffer {
    nibbles: Nibbles,
}

impl Model for PartBuffer {
    ghost use Rattle.std.specs.Prelude.{ℕ, List, IsTrue, length};
    ghost use Rattle.secure_entry.specs.PartBuffers.{is_part_length};

    ghost Value = { List ℕ };

    ghost view = { λ b. b.nibbles };

    ghost invariant = { λ b. IsTrue (is_part_length (length b.nibbles)) };
}

impl PartBuffer {
    /// No key part.
    pub fn empty() -> PartBuffer
        ensures { result ≡ [] }
    {
        PartBuffer {
            nibbles: Nibbles::empty(),
        }
    }

    /// Holds these nibbles, in the place of those that were held.
    pub fn set(&mut self, nibbles: &Nibbles)
        requires { IsTrue (is_part_length (length nibbles.now)) }
        ensures { self.new ≡ nibbles.now }
    {
        self.nibbles = nibbles.copy();
    }

    /// Holds no key part.
    pub fn clear(&mut self)
        ensures { self.new ≡ [] }
    {
        self.nibbles.clear();
    }

    /// The nibbles that are held, left first: none, 16, 32 or 48, each of 0 to 15.
    pub fn items(&self) -> &[u8]
        ensures items { result.now ≡ self.now }
        ensures count { IsTrue (is_part_length (length result.now)) }
        ensures small { All (λ nibble. nibble < 16) result.now }
    {
        self.nibbles.items()
    }

    /// The value of the key part: its nibbles, the left one of a byte first. None where the buffer is empty.
    pub fn value(&self) -> Option<KeyValue>
        ensures { result ≡ part_value self.now }
    {
        let nibbles = self.items();
        if nibbles.is_empty() {
            return None;
        }
        KeyValue::new(packed(nibbles).as_slice())
    }
}

// the bytes of the nibbles, the left nibble of a byte first
fn packed(nibbles: &[u8]) -> ArrayVec<u8, 24>
    requires few { length nibbles.now ≤ 48 }
    requires even { length nibbles.now % 2 ≡ 0 }
    requires small { All (λ nibble. nibble < 16) nibbles.now }
    ensures bytes { result.items ≡ packed nibbles.now }
    ensures count { length result.items ≡ length nibbles.now / 2 }
{
    let mut bytes = ArrayVec::new();
    for i in 0..nibbles.len() / 2 {
        bytes.push(nibbles[2 * i] * 16 + nibbles[2 * i + 1]);
    }
    bytes
}
