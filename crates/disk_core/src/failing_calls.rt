//! The calls that a source or a sink in memory is to fail.
ghost use Rattle.std.specs.Prelude.{◌≡◌, ◌≤◌, ◌↔◌, length, IsSome, IfSome, IsTrue, Contains};

use arrayvec::ArrayVec;
use std::marker::Model;

/// At most 32 numbers of calls, counted from 1: the calls that are to fail.
#[derive(Drop)]
pub struct Calls {
    numbers: ArrayVec<u32, 32>,
}

impl Model for Calls {
    ghost use Rattle.std.specs.Prelude.{ℕ, List};

    ghost Value = { List ℕ };

    ghost view = { λ c. c.numbers.items };
}

impl Calls {
    /// These numbers of calls. None above 32 of them.
    pub fn of(numbers: &[u32]) -> Option<Calls>
        ensures few { IsSome result ↔ (length numbers.now ≤ 32) }
        ensures value { IfSome result (λ c. c ≡ numbers.now) }
    {
        match ArrayVec::try_from(numbers) {
            Ok(numbers) => Some(Calls { numbers }),
            Err(_) => None,
        }
    }

    /// The numbers, in the order in which they were given.
    pub fn items(&self) -> &[u32]
        ensures items { result.now ≡ self.now }
        ensures few { length result.now ≤ 32 }
    {
        self.numbers.as_slice()
    }

    /// Whether the call of this number is to fail.
    pub fn has(&self, number: u64) -> bool
        ensures { IsTrue result ↔ Contains self.now number }
    {
        self.items().iter().any(|&known| u64::from(known) == number)
    }
}
