//! The sixteen nibbles of a block, as they are put from the left.
ghost use Rattle.std.specs.Prelude.{◌≡◌, ◌<◌, ◌∷◌, ◌++◌, [], All, length, map, replicate};
ghost use Rattle.pad_words.specs.Bytes.{exclusive_or, packed};
ghost use Rattle.pin_blocks.specs.Blocks.{fill_nibbles, sixteen};

use arrayvec::ArrayVec;
use pad_words::{Block, Digit};
use std::marker::Model;

/// At most sixteen nibbles. What is put behind the sixteenth is dropped.
#[derive(Drop)]
pub struct Field {
    nibbles: ArrayVec<u8, 16>,
}

impl Model for Field {
    ghost use Rattle.std.specs.Prelude.{ℕ, ◌<◌, List, All};

    ghost Value = { List ℕ };

    ghost view = { λ field. field.nibbles.items };

    ghost invariant = { λ field. All (λ nibble. nibble < 16) field.nibbles.items };
}

impl Field {
    /// No nibbles.
    pub fn empty() -> Field
        ensures { result ≡ [] }
    {
        Field {
            nibbles: ArrayVec::new(),
        }
    }

    /// Puts a nibble last.
    pub fn put(&mut self, nibble: u8)
        requires { nibble < 16 }
        ensures { self.new ≡ sixteen (self.old ++ nibble ∷ []) }
    {
        if !self.nibbles.is_full() {
            self.nibbles.push(nibble);
        }
    }

    /// Puts nibbles last, in order.
    pub fn put_all(&mut self, nibbles: &[u8])
        requires { All (λ nibble. nibble < 16) nibbles.now }
        ensures { self.new ≡ sixteen (self.old ++ nibbles.now) }
    {
        if self.nibbles.is_full() {
            return;
        }
        for nibble in nibbles {
            self.put(*nibble);
        }
    }

    /// Puts the digits of a PIN last, in order.
    pub fn put_digits(&mut self, digits: &[Digit])
        ensures { self.new ≡ sixteen (self.old ++ map (λ digit. digit.value) digits.now) }
    {
        if self.nibbles.is_full() {
            return;
        }
        for digit in digits {
            self.put(digit.get());
        }
    }

    /// Puts a fill nibble of each word last, in order: A to F, by the word modulo 6.
    pub fn put_fill(&mut self, words: &[u32])
        ensures { self.new ≡ sixteen (self.old ++ fill_nibbles words.now) }
    {
        if self.nibbles.is_full() {
            return;
        }
        for word in words {
            self.put(10 + (*word % 6) as u8);
        }
    }

    /// Puts one nibble up to the sixteenth place.
    pub fn pad_with(&mut self, nibble: u8)
        requires { nibble < 16 }
        ensures padded { self.new ≡ sixteen (self.old ++ replicate 16 nibble) }
        ensures full { length self.new ≡ 16 }
    {
        self.put_all(&[nibble; 16]);
    }

    /// XORs each nibble with that in its place in the other.
    pub fn exclusive_or(&mut self, other: &Field)
        requires { length self.old ≡ length other.now }
        ensures nibbles { self.new ≡ exclusive_or self.old other.now }
        ensures long { length self.new ≡ length self.old }
    {
        pad_words::exclusive_or(self.nibbles.as_mut_slice(), other.nibbles.as_slice());
    }

    /// The nibbles as eight bytes, the left nibble of each byte first.
    pub fn block(&self) -> Block
        requires { length self.now ≡ 16 }
        ensures { result.0 ≡ packed self.now }
    {
        let nibbles = self.nibbles.as_slice();
        let mut bytes = [0; 8];
        for i in 0..8 {
            bytes[i] = nibbles[2 * i] * 16 + nibbles[2 * i + 1];
        }
        Block(bytes)
    }
}
