//! A machine that adds what it is given.
ghost use Rattle.std.specs.Prelude.{◌≡◌, ◌%◌, ◌+◌, ◌^◌};

use crate::machine::{Entry, Machine};
use pad_words::NoMemory;

/// Beside the total, it goes so many rounds of a generator at each operation, for which it takes its time.
#[derive(Drop)]
pub struct Adder {
    pub total: u64,
    rounds: u32,
    word: u64,
}

impl Adder {
    pub fn new(rounds: u32) -> Adder
        ensures { result.total ≡ 0 }
    {
        Adder {
            total: 0,
            rounds,
            word: 1,
        }
    }
}

/// A total to which a number was added.
#[derive(Drop)]
pub struct Sum {
    before: u64,
    added: u64,
    after: u64,
    ghost sum: { after ≡ (before + added) % 2 ^ 64 },
}

impl Sum {
    /// The total with this number added.
    pub fn of(before: u64, added: u64) -> Sum {
        Sum {
            before,
            added,
            after: before.wrapping_add(added),
        }
    }
}

// The word after so many rounds.
fn word_after(rounds: u32, word: u64) -> u64 {
    let mut word = word;
    for _ in 0..rounds {
        word = word.wrapping_mul(6364136223846793005).wrapping_add(1);
    }
    word
}

// The total with this number added: that of the help, where it is of these.
fn total_after(total: u64, added: u64, help: &Sum) -> u64
    ensures { result ≡ (total + added) % 2 ^ 64 }
{
    if help.before == total && help.added == added {
        help.after
    } else {
        total.wrapping_add(added)
    }
}

impl Machine for Adder {
    type Op = u64;

    type Outcome = u64;

    type Part = u64;

    type Help = Sum;

    ghost use Rattle.std.specs.Prelude.{◌≡◌, Some, []};
    ghost use Rattle.turnstile.specs.RunningSums.{AreRunningSums, last_sum};
    ghost use Rattle.turnstile.specs.declared.tests.adder.Adder.{Adder};

    ghost stands = { λ (a : Adder) h. AreRunningSums 0 h × (a.total ≡ last_sum 0 h) };

    ghost origin = { λ a. [] };

    ghost legal = { λ h. AreRunningSums 0 h };

    ghost allows = { λ op. Unit {0} };

    ghost status_after = { λ h. 0 };

    ghost part_fits = { λ part h. part ≡ Some (last_sum 0 h) };

    ghost legal_empty = { tt };

    ghost legal_if = { λ m h st. st.0 };

    fn apply(&mut self, op: &u64) -> Result<(u64, u64), NoMemory> {
        self.word = word_after(self.rounds, self.word);
        self.total = self.total.wrapping_add(*op);
        Ok((self.total, self.total))
    }

    fn apply_with(&mut self, op: &u64, help: &Sum) -> Result<(u64, u64), NoMemory> {
        self.word = word_after(self.rounds, self.word);
        self.total = total_after(self.total, *op, help);
        Ok((self.total, self.total))
    }

    fn part(&self) -> Result<Option<u64>, NoMemory> {
        Ok(Some(self.total))
    }

    fn status(&self) -> u64 {
        0
    }
}
