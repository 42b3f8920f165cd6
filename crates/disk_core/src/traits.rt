//! A source of bytes and a sink for bytes.
ghost use Rattle.std.specs.Prelude.{◌≡◌, ℕ, List, Option};
ghost use Rattle.disk_core.specs.Causes.{HasCause, next_count};
ghost use Rattle.disk_core.specs.Streams.{Takes, Gives};

/// A call that did not succeed, and did nothing.
#[derive(Clone, Copy, Debug, PartialEq, Eq)]
pub struct Failed;

/// Where bytes come from.
pub trait Source {
    /// The bytes that are left, where the source tells them.
    ghost left: { Self → Option (List ℕ) };
    /// How many calls failed, up to 2^64 - 1, where the count stands still. It never falls, and stays where a call succeeds.
    ghost faults: { Self → ℕ };
    /// How many calls there were, up to 2^64 - 1, where the count stands still.
    ghost calls: { Self → ℕ };

    /// Puts the next bytes at the front of the piece, and answers how many. No bytes for a piece that is
    /// not empty is the end of the input. A call that fails takes nothing.
    fn take(&mut self, piece: &mut [u8]) -> Result<usize, Failed>
        ensures taken { Takes (left self.old) (left self.new) piece.old piece.new result }
        ensures cause { HasCause (faults self.old) (faults self.new) result }
        ensures counts { calls self.new ≡ next_count (calls self.old) };
}

/// Where bytes go.
pub trait Sink {
    /// The bytes given, where the sink tells them.
    ghost given: { Self → Option (List ℕ) };
    /// How many calls failed, up to 2^64 - 1, where the count stands still. It never falls, and stays where a call succeeds.
    ghost faults: { Self → ℕ };
    /// How many calls there were, up to 2^64 - 1, where the count stands still.
    ghost calls: { Self → ℕ };

    /// Takes bytes from the front of the piece, and answers how many: none of a piece that is not empty
    /// where the sink has no room. A call that fails takes nothing.
    fn give(&mut self, piece: &[u8]) -> Result<usize, Failed>
        ensures gives { Gives (given self.old) (given self.new) piece.now result }
        ensures cause { HasCause (faults self.old) (faults self.new) result }
        ensures counts { calls self.new ≡ next_count (calls self.old) };
}
