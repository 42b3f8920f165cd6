//! A source in memory.
ghost use Rattle.std.specs.Prelude.{◌≡◌, ◌<◌, ◌↔◌, length, drop, min, Some, Contains, IfOk, OnErr, IsErr};
ghost use Rattle.disk_core.specs.Causes.{HasCause, next_count};
ghost use Rattle.disk_core.specs.Streams.{Takes};

use crate::failing_calls::Calls;
use crate::traits::{Failed, Source};
use pad_words::Octets;
use std::marker::Model;

/// A source that gives bytes in memory, at most so many in each call, and fails the calls of a list.
#[derive(Drop)]
pub struct MemSource {
    bytes: Octets,
    at: usize,
    piece: usize,
    fails: Calls,
    calls: u64,
    faults: u64,
}

impl Model for MemSource {
    ghost use Rattle.std.specs.Prelude.{◌<◌, ◌≤◌, length, drop};
    ghost use Rattle.disk_core.specs.MemoryStreams.{SourceState};

    ghost Value = { SourceState };

    ghost view = { λ s. record { left = drop s.at s.bytes; piece = s.piece; fails = s.fails; calls = s.calls; faults = s.faults } };

    ghost invariant = { λ s. (0 < s.piece) × (s.at ≤ length s.bytes) };
}

impl MemSource {
    /// A source of these bytes that gives at most `piece` of them in each call.
    pub fn new(bytes: Octets, piece: usize, fails: Calls) -> MemSource
        requires { 0 < piece }
        ensures { result ≡ record { left = bytes; piece = piece; fails = fails; calls = 0; faults = 0 } }
    {
        MemSource {
            bytes,
            at: 0,
            piece,
            fails,
            calls: 0,
            faults: 0,
        }
    }
}

impl Source for MemSource {
    ghost use Rattle.std.specs.Prelude.{Some};

    ghost left = { λ s. Some s.left };

    ghost faults = { λ s. s.faults };

    ghost calls = { λ s. s.calls };

    fn take(&mut self, piece: &mut [u8]) -> Result<usize, Failed>
        ensures taken { Takes (Some self.old.left) (Some self.new.left) piece.old piece.new result }
        ensures cause { HasCause self.old.faults self.new.faults result }
        ensures counts { self.new.calls ≡ next_count self.old.calls }

        // Which calls fail, how many bytes the others take, and what stands after each.
        ensures fails { IsErr result ↔ Contains self.old.fails (next_count self.old.calls) }
        ensures amount { IfOk result (λ n. n ≡ min (min (length self.old.left) (length piece.old)) self.old.piece) }
        ensures ok { IfOk result (λ n. self.new ≡ record self.old { left = drop n self.old.left; calls = next_count self.old.calls }) }
        ensures err { OnErr result (self.new ≡ record self.old { calls = next_count self.old.calls; faults = next_count self.old.faults }) }

        // What stays of the piece: all that stands behind the bytes that it was given, and the whole after a failure.
        ensures behind { IfOk result (λ n. drop n piece.new ≡ drop n piece.old) }
        ensures untouched { OnErr result (piece.new ≡ piece.old) }
    {
        self.calls = self.calls.saturating_add(1);
        if self.fails.has(self.calls) {
            self.faults = self.faults.saturating_add(1);
            return Err(Failed);
        }
        let left = &self.bytes.items()[self.at..];
        let n = left.len().min(piece.len()).min(self.piece);
        piece[..n].copy_from_slice(&left[..n]);
        self.at += n;
        Ok(n)
    }
}
