//! What stands behind a turn.
ghost use Rattle.std.specs.Prelude.{◌≡◌, ℕ, ◌<◌, ◌^◌, [], List, Option, IfOk, OnErr};
ghost use Rattle.turnstile.specs.declared.machine.Entry.{Entry};
ghost use Rattle.turnstile.specs.Machines.{HasRoom, Appends};

use pad_words::NoMemory;

/// An operation with its outcome.
#[derive(Drop)]
pub struct Entry<O, R> {
    pub op: O,
    pub outcome: R,
}

/// Why a call was not made. The operation comes back.
#[derive(Drop)]
pub enum CallFault<O> {
    /// Memory was wanting.
    NoMemory(O),
    /// The history has this many entries, which is as many as it may have: 1,048,576.
    HistoryFull(u32, O),
}

/// What a turn is of. A machine stands for a history: for what its entries made of it. It need not keep that history.
pub trait Machine: Drop {
    type Op: Drop;

    type Outcome: Drop;

    /// Work that a machine hands out, to be done while others call.
    type Part: Drop;

    /// What came of such work. It spares the machine that work, and decides nothing.
    type Help: Drop;

    /// The histories that a machine stands for.
    ghost stands: { Self → List (Entry Self.Op Self.Outcome) → Type 0 };

    /// What a machine was made with, which no operation changes: numbers such as a seed.
    ghost origin: { Self → List ℕ };

    /// The histories that may be. A machine stands for no others.
    ghost legal: { List (Entry Self.Op Self.Outcome) → Type 0 };

    /// The operations that may be applied.
    ghost allows: { Self.Op → Type 0 };

    /// The status after a legal history.
    ghost status_after: { List (Entry Self.Op Self.Outcome) → ℕ };

    /// What a machine may hand out after a history: a part, or none.
    ghost part_fits: { Option Self.Part → List (Entry Self.Op Self.Outcome) → Type 0 };

    /// Applies an operation, and gives its outcome twice: for the history, and for the caller. The machine then stands for
    /// the history with this entry at its end. After want of memory it is as before.
    fn apply(&mut self, op: &Self::Op) -> Result<(Self::Outcome, Self::Outcome), NoMemory>
        requires room { HasRoom stands self.old }
        requires allowed { allows op.now }
        ensures twice { IfOk result (λ given. given.0 ≡ given.1) }
        ensures entered { IfOk result (λ given. Appends stands self.old self.new op.now given.0) }
        ensures origin { origin self.new ≡ origin self.old }
        ensures unchanged { OnErr result (self.new ≡ self.old) };

    /// Applies an operation as `apply` does, with the help of what was worked on before. Where that was for another
    /// operation, or for another history, the machine does without it.
    fn apply_with(
        &mut self,
        op: &Self::Op,
        help: &Self::Help,
    ) -> Result<(Self::Outcome, Self::Outcome), NoMemory>
        requires room { HasRoom stands self.old }
        requires allowed { allows op.now }
        ensures twice { IfOk result (λ given. given.0 ≡ given.1) }
        ensures entered { IfOk result (λ given. Appends stands self.old self.new op.now given.0) }
        ensures origin { origin self.new ≡ origin self.old }
        ensures unchanged { OnErr result (self.new ≡ self.old) };

    /// What may be worked on while others call, for the operation that is due. It changes nothing.
    fn part(&self) -> Result<Option<Self::Part>, NoMemory>
        ensures { IfOk result (λ part.
            (history : List (Entry Self.Op Self.Outcome)) → stands self.now history → part_fits part history) };

    /// The status after the machine's history, a number below 2^43.
    fn status(&self) -> u64
        ensures value { (history : List (Entry Self.Op Self.Outcome)) → stands self.now history → result ≡ status_after history }
        ensures below { result < 2 ^ 43 };

    /// The empty history is legal.
    ghost legal_empty: { legal [] };

    /// What a machine stands for is legal.
    ghost legal_if: { (machine : Self) (history : List (Entry Self.Op Self.Outcome)) → stands machine history → legal history };
}
