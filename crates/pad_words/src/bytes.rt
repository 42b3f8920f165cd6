//! Bytes and half bytes: a list of bytes, a block of eight, a list of nibbles.
ghost use Rattle.std.specs.Prelude.{◌≡◌, ◌<◌, ◌≤◌, ◌↔◌, ◌++◌, ◌-◌, ◌∷◌, [], length, take, All, IsTrue, OnOk, OnErr, IfOk};
ghost use Rattle.std.specs.Bool.{OnTrue, OnFalse};
ghost use Rattle.pad_words.specs.Bytes.{exclusive_or};

use crate::NoMemory;
use arrayvec::ArrayVec;
use std::alloc::Global;
use std::marker::Model;

/// A list of bytes.
#[derive(Drop)]
pub struct Octets {
    bytes: Vec<u8>,
}

impl Model for Octets {
    ghost use Rattle.std.specs.Prelude.{ℕ, List};

    ghost Value = { List ℕ };

    ghost view = { λ o. o.bytes.items };
}

impl Octets {
    /// No bytes. It takes no memory.
    pub fn empty(alloc: Global) -> Octets
        ensures { result ≡ [] }
    {
        Octets {
            bytes: Vec::new(alloc),
        }
    }

    /// These bytes.
    pub fn of(bytes: Vec<u8>) -> Octets
        ensures { result ≡ bytes.items }
    {
        Octets { bytes }
    }

    /// A copy of these bytes.
    pub fn copy(alloc: Global, bytes: &[u8]) -> Result<Octets, NoMemory>
        ensures { IfOk result (λ o. o ≡ bytes.now) }
    {
        match Vec::from_slice(alloc, bytes) {
            Ok(bytes) => Ok(Octets { bytes }),
            Err(_) => Err(NoMemory),
        }
    }

    /// The bytes in order.
    pub fn items(&self) -> &[u8]
        ensures { result.now ≡ self.now }
    {
        self.bytes.as_slice()
    }

    /// Puts a byte last. After want of memory the list is as before.
    pub fn push(&mut self, item: u8) -> Result<(), NoMemory>
        ensures ok { OnOk result (self.new ≡ self.old ++ item ∷ []) }
        ensures err { OnErr result (self.new ≡ self.old) }
    {
        match self.bytes.push(item) {
            Ok(()) => Ok(()),
            Err(_) => Err(NoMemory),
        }
    }

    /// Puts bytes last. After want of memory the list is as before.
    pub fn append(&mut self, items: &[u8]) -> Result<(), NoMemory>
        ensures ok { OnOk result (self.new ≡ self.old ++ items.now) }
        ensures err { OnErr result (self.new ≡ self.old) }
    {
        match self.bytes.extend_from_slice(items) {
            Ok(()) => Ok(()),
            Err(_) => Err(NoMemory),
        }
    }

    /// Drops all bytes, and keeps the memory for later ones.
    pub fn clear(&mut self)
        ensures { self.new ≡ [] }
    {
        self.bytes.clear();
    }
}

/// Eight bytes, the block of DES (FIPS 46-3).
#[derive(Clone, Copy, Debug, PartialEq, Eq)]
pub struct Block(pub [u8; 8]);

/// Each byte becomes its exclusive or with the byte in its place in the other list.
pub fn exclusive_or(bytes: &mut [u8], other: &[u8])
    requires { length bytes.old ≡ length other.now }
    ensures { bytes.new ≡ exclusive_or bytes.old other.now }
{
    for i in 0..bytes.len() {
        bytes[i] ^= other[i];
    }
}

/// At most 48 values of 0 to 15.
#[derive(Drop)]
pub struct Nibbles {
    values: ArrayVec<u8, 48>,
}

impl Model for Nibbles {
    ghost use Rattle.std.specs.Prelude.{ℕ, ◌<◌, List, All};

    ghost Value = { List ℕ };

    ghost view = { λ n. n.values.items };

    ghost invariant = { λ n. All (λ v. v < 16) n.values.items };
}

impl Nibbles {
    /// No values.
    pub fn empty() -> Nibbles
        ensures { result ≡ [] }
    {
        Nibbles {
            values: ArrayVec::new(),
        }
    }

    /// The values in order: at most 48, each of 0 to 15.
    pub fn items(&self) -> &[u8]
        ensures items { result.now ≡ self.now }
        ensures small { All (λ v. v < 16) result.now }
        ensures few { length result.now ≤ 48 }
    {
        self.values.as_slice()
    }

    /// Puts a value last. False, with nothing put, where 48 are there or the value is above 15.
    pub fn push(&mut self, v: u8) -> bool
        ensures fits { IsTrue result ↔ ((length self.old < 48) × (v < 16)) }
        ensures put { OnTrue result (self.new ≡ self.old ++ v ∷ []) }
        ensures refused { OnFalse result (self.new ≡ self.old) }
    {
        if v > 15 || self.values.is_full() {
            return false;
        }
        self.values.push(v);
        true
    }

    /// Drops the last value, if there is one.
    pub fn drop_last(&mut self)
        ensures { self.new ≡ take (length self.old - 1) self.old }
    {
        let _ = self.values.pop();
    }

    /// Drops all values.
    pub fn clear(&mut self)
        ensures { self.new ≡ [] }
    {
        self.values.clear();
    }

    /// The same values again, without memory.
    pub fn copy(&self) -> Nibbles
        ensures { result ≡ self.now }
    {
        match ArrayVec::try_from(self.values.as_slice()) {
            Ok(values) => Nibbles { values },
            Err(_) => unreachable!(),
        }
    }
}
