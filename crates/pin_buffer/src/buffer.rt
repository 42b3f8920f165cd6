//! The digits of a held PIN, and zeros after them.
ghost use Rattle.std.specs.Prelude.{◌≡◌, ◌<◌, ◌≤◌, [], All, get_or, length};
ghost use Rattle.pin_buffer.specs.PinMemory.{padded, values_of, zeros_after};

use pad_words::{Digit, Nibbles};
use std::marker::Model;

/// A held PIN of at most 16 digits, or none. The memory after the digits is zero.
#[derive(Drop)]
pub struct PinBuffer {
    places: [Digit; 16],
    count: usize,
}

impl Model for PinBuffer {
    ghost use Rattle.std.specs.Prelude.{◌≡◌, ◌≤◌, take};
    ghost use Rattle.pin_buffer.specs.PinMemory.{PinMemory, memory_of, padded, values_of};

    ghost Value = { PinMemory };

    ghost view = { λ b. memory_of b.count b.places };

    ghost invariant = { λ b. (b.count ≤ 16) × (values_of b.places ≡ padded (take b.count (values_of b.places))) };
}

impl PinBuffer {
    /// No PIN: each of the sixteen places is zero.
    pub fn empty() -> PinBuffer
        ensures digits { result.digits ≡ [] }
        ensures rest { result.rest ≡ zeros_after [] }
    {
        PinBuffer {
            places: [Digit { value: 0 }; 16],
            count: 0,
        }
    }

    /// Holds these digits. No digit that was held before stays in the memory.
    pub fn set(&mut self, digits: &Nibbles)
        requires few { length digits.now ≤ 16 }
        requires decimal { All (λ digit. digit < 10) digits.now }
        ensures digits { self.new.digits ≡ digits.now }
        ensures rest { self.new.rest ≡ zeros_after digits.now }
    {
        let digits = digits.items();
        put(&mut self.places, digits);
        self.count = digits.len();
    }

    /// Holds no PIN, and leaves no digit in the memory.
    pub fn clear(&mut self)
        ensures digits { self.new.digits ≡ [] }
        ensures rest { self.new.rest ≡ zeros_after [] }
    {
        put(&mut self.places, &[]);
        self.count = 0;
    }

    /// The digits of the PIN in order: at most 16, and none where no PIN is held. The memory after them is zero.
    pub fn digits(&self) -> &[Digit]
        ensures digits { values_of result.now ≡ self.now.digits }
        ensures few { length result.now ≤ 16 }
        ensures rest { self.now.rest ≡ zeros_after self.now.digits }
    {
        &self.places[..self.count]
    }
}

// puts the digits into the first places, and zero into the others
fn put(places: &mut [Digit; 16], digits: &[u8])
    requires few { length digits.now ≤ 16 }
    requires decimal { All (λ digit. digit < 10) digits.now }
    ensures { values_of places.new ≡ padded digits.now }
{
    for i in 0..16 {
        places[i] = digit_at(digits, i);
    }
}

// the digit in this place; 0 where there is none
fn digit_at(digits: &[u8], place: usize) -> Digit
    requires { All (λ digit. digit < 10) digits.now }
    ensures { result.value ≡ get_or digits.now place 0 }
{
    match digits.get(place) {
        Some(&value) => Digit { value },
        None => Digit { value: 0 },
    }
}

#[cfg(test)]
mod tests;
