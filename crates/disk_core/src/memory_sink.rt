//! A sink in memory.
ghost use Rattle.std.specs.Prelude.{◌≡◌, ◌-◌, ◌++◌, [], ◌↔◌, length, take, min, Some, Contains, IfOk, OnErr, IsErr};
ghost use Rattle.disk_core.specs.Causes.{HasCause, next_count};
ghost use Rattle.disk_core.specs.Streams.{Gives};

use crate::failing_calls::Calls;
use crate::traits::{Failed, Sink};
use pad_words::NoMemory;
use std::alloc::Global;
use std::marker::Model;

/// A sink that keeps bytes in memory, up to a bound, and fails the calls of a list.
#[derive(Drop)]
pub struct MemSink {
    bytes: Vec<u8>,
    room: usize,
    fails: Calls,
    calls: u64,
    faults: u64,
}

impl Model for MemSink {
    ghost use Rattle.std.specs.Prelude.{◌+◌, ◌≤◌, vec_len, vec_capacity};
    ghost use Rattle.disk_core.specs.MemoryStreams.{SinkState};

    ghost Value = { SinkState };

    ghost view = { λ s. record { given = s.bytes.items; room = s.room; fails = s.fails; calls = s.calls; faults = s.faults } };

    ghost invariant = { λ s. vec_len s.bytes + s.room ≤ vec_capacity s.bytes };
}

impl MemSink {
    /// An empty sink with room for `room` bytes. It takes all its memory here.
    pub fn new(alloc: Global, room: usize, fails: Calls) -> Result<MemSink, NoMemory>
        ensures { IfOk result (λ s. s ≡ record { given = []; room = room; fails = fails; calls = 0; faults = 0 }) }
    {
        match Vec::with_capacity(alloc, room) {
            Ok(bytes) => Ok(MemSink {
                bytes,
                room,
                fails,
                calls: 0,
                faults: 0,
            }),
            Err(_) => Err(NoMemory),
        }
    }

    /// What was given, in order.
    pub fn bytes(&self) -> &[u8]
        ensures { result.now ≡ self.now.given }
    {
        self.bytes.as_slice()
    }
}

impl Sink for MemSink {
    ghost use Rattle.std.specs.Prelude.{Some};

    ghost given = { λ s. Some s.given };

    ghost faults = { λ s. s.faults };

    ghost calls = { λ s. s.calls };

    fn give(&mut self, piece: &[u8]) -> Result<usize, Failed>
        ensures gives { Gives (Some self.old.given) (Some self.new.given) piece.now result }
        ensures cause { HasCause self.old.faults self.new.faults result }
        ensures counts { self.new.calls ≡ next_count self.old.calls }

        // Which calls fail, how many bytes the others take, and what stands after each.
        ensures fails { IsErr result ↔ Contains self.old.fails (next_count self.old.calls) }
        ensures amount { IfOk result (λ n. n ≡ min (length piece.now) self.old.room) }
        ensures ok { IfOk result (λ n. self.new ≡ record self.old { given = self.old.given ++ take n piece.now; room = self.old.room - n; calls = next_count self.old.calls }) }
        ensures err { OnErr result (self.new ≡ record self.old { calls = next_count self.old.calls; faults = next_count self.old.faults }) }
    {
        self.calls = self.calls.saturating_add(1);
        if self.fails.has(self.calls) {
            self.faults = self.faults.saturating_add(1);
            return Err(Failed);
        }
        let n = piece.len().min(self.room);
        match self.bytes.extend_from_slice(&piece[..n]) {
            Ok(()) => {}
            Err(_) => unreachable!(),
        }
        self.room -= n;
        Ok(n)
    }
}
