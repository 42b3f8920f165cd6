//! A sink that must take something of what it is given.
ghost use Rattle.std.specs.Prelude.{◌≡◌, ◌<◌, ◌⊎◌, length, IfOk, OnOk, OnErr};
ghost use Rattle.disk_core.specs.Causes.{HasCause, next_count};
ghost use Rattle.disk_core.specs.Streams.{Gives, GivesFront, with_more};
ghost use Rattle.disk_core.specs.CountedSinks.{counted_inner, counted_zeros, counted_given, counted_faults, counted_calls, FailsInside, FailsByZero};

use crate::traits::{Failed, Sink};

/// A sink round another, for which an answer of 0 for a piece that is not empty is a fault too. Its count of
/// faults is that of the sink inside plus these, at most 2^64 - 1.
#[derive(Drop)]
pub struct Counted<K> {
    inner: K,
    zeros: u64,
}

impl<K: Sink> Counted<K> {
    /// A sink round this one, with no fault of its own.
    pub fn new(inner: K) -> Counted<K>
        ensures inner { counted_inner result ≡ inner }
        ensures zeros { counted_zeros result ≡ 0 }
    {
        Counted { inner, zeros: 0 }
    }

    /// The sink inside.
    pub fn inner(&self) -> &K
        ensures { result.now ≡ counted_inner self.now }
    {
        &self.inner
    }
}

impl<K: Sink> Sink for Counted<K> {
    ghost use Rattle.disk_core.specs.CountedSinks.{counted_given, counted_faults, counted_calls};

    ghost given = { counted_given K.given };

    ghost faults = { counted_faults K.faults };

    ghost calls = { counted_calls K.calls };

    fn give(&mut self, piece: &[u8]) -> Result<usize, Failed>
        ensures gives { Gives (counted_given K.given self.old) (counted_given K.given self.new) piece.now result }
        ensures cause { HasCause (counted_faults K.faults self.old) (counted_faults K.faults self.new) result }
        ensures counts { counted_calls K.calls self.new ≡ next_count (counted_calls K.calls self.old) }
        ensures progress { 0 < length piece.now → IfOk result (λ n. 0 < n) }

        // What a failure counts, and where.
        ensures failed { OnErr result (FailsInside K.faults self.old self.new ⊎ FailsByZero piece.now self.old self.new) }
        ensures zeros { OnOk result (counted_zeros self.new ≡ counted_zeros self.old) }
    {
        let n = self.inner.give(piece)?;
        if n == 0 && !piece.is_empty() {
            self.zeros = self.zeros.saturating_add(1);
            return Err(Failed);
        }
        Ok(n)
    }
}

/// Gives all the bytes, in as many calls as the sink needs. Where a call fails, a front of them was given.
pub fn give_all<K: Sink>(sink: &mut Counted<K>, bytes: &[u8]) -> Result<(), Failed>
    ensures ok { OnOk result (counted_given K.given sink.new ≡ with_more (counted_given K.given sink.old) bytes.now) }
    ensures err { OnErr result (GivesFront (counted_given K.given sink.old) (counted_given K.given sink.new) bytes.now) }
    ensures cause { HasCause (counted_faults K.faults sink.old) (counted_faults K.faults sink.new) result }
{
    let mut at = 0;
    while at < bytes.len() {
        let n = sink.give(&bytes[at..])?;
        at += n;
    }
    Ok(())
}
