// A sink for what nobody reads.
ghost use Rattle.std.specs.Prelude.{◌≡◌};

use disk_core::{Failed, Sink};

/// A sink that takes all that it is given, and keeps and tells none of it. It never fails.
#[derive(Drop)]
pub struct Discard {
    calls: u64,
}

impl Discard {
    /// A sink to which nothing was given yet.
    pub fn new() -> Discard
        ensures { result.calls ≡ 0 }
    {
        Discard { calls: 0 }
    }
}

impl Sink for Discard {
    ghost use Rattle.std.specs.Prelude.{None};

    ghost given = { λ _. None };

    ghost faults = { λ _. 0 };

    ghost calls = { λ s. s.calls };

    fn give(&mut self, piece: &[u8]) -> Result<usize, Failed> {
        self.calls = self.calls.saturating_add(1);
        Ok(piece.len())
    }
}
