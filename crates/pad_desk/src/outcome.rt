//! What a step came to.
ghost use Rattle.std.specs.Prelude.{◌≡◌};

use pad_steps::{DiskWord, Fate, Out, Outs};
use std::marker::Model;
use std::snapshot::Snapshot;

/// What a step said, in order. Clauses see the seed of the run too, of which no byte is kept here.
#[derive(Drop)]
pub struct StepOuts {
    outs: Outs,
    seed: Snapshot<[u8; 32]>,
}

impl Model for StepOuts {
    ghost use Rattle.pad_desk.specs.Outs.{OutsOfRun};

    ghost Value = { OutsOfRun };

    ghost view = { λ o. record { items = o.outs.items; seed = o.seed.value } };
}

impl StepOuts {
    /// These outs, said in a run of this seed.
    pub(crate) fn of(outs: Outs, seed: Snapshot<[u8; 32]>) -> StepOuts
        ensures { (result.items ≡ outs.items) × (result.seed ≡ seed.value) }
    {
        StepOuts { outs, seed }
    }

    /// The outs in order.
    pub fn items(&self) -> &[Out]
        ensures { result.now ≡ self.now.items }
    {
        self.outs.items()
    }

    /// The outs as a list of their own.
    pub fn outs(&self) -> &Outs
        ensures { result.now.items ≡ self.now.items }
    {
        &self.outs
    }
}

/// What a step came to: what the disk did in it, what it said, whether it was a press of an active digit of a PIN, and how
/// the rows that were loaded compare with those that were kept, where rows were loaded.
#[derive(Drop)]
pub struct StepOut {
    pub word: DiskWord,
    pub outs: StepOuts,
    pub masked: bool,
    pub fate: Option<Fate>,
}
