//! A reader of the library as a source, as standard input is. A source over a reader that tells its bytes tells them
//! too. No contract can say which bytes standard input holds, so it tells none.
ghost use Rattle.std.specs.Prelude.{◌≡◌, OnOk, OnErr};
ghost use Rattle.disk_core.specs.Causes.{HasCause, next_count};
ghost use Rattle.disk_core.specs.HostStreams.{fresh_host, host_bytes, HostDoes, HostFails};
ghost use Rattle.disk_core.specs.Streams.{Takes};

use crate::host_faults::count_fault;
use crate::traits::{Failed, Source};
use std::io::{Input, Read};
use std::marker::Model;
use std::snapshot::Snapshot;

/// A reader of the library. Contracts see the reader and its count of faults.
#[derive(Drop)]
pub struct StdSource<I: Read> {
    input: I,
    first: Snapshot<I>,
    calls: u64,
    faults: u64,
}

impl<I: Read> Model for StdSource<I> {
    ghost use Rattle.disk_core.specs.HostStreams.{HostState, StaysTold};

    ghost Value = { HostState I };

    ghost view = { λ s. record { host = s.input; first = s.first.value; calls = s.calls; faults = s.faults } };

    ghost invariant = { λ s. StaysTold (I.remaining s.first.value) (I.remaining s.input) };
}

impl<I: Read> StdSource<I> {
    /// This reader, with no fault yet.
    pub fn of(input: I) -> StdSource<I>
        ensures { result ≡ fresh_host input }
    {
        StdSource {
            first: Snapshot::of(&input),
            input,
            calls: 0,
            faults: 0,
        }
    }

    /// The standard input of `rt`, with no fault yet.
    pub fn new<R: Input<Reader = I>>(rt: &R) -> StdSource<I>
        ensures calls { result.calls ≡ 0 }
        ensures faults { result.faults ≡ 0 }
        ensures first { result.first ≡ result.host }
    {
        StdSource::of(rt.reader())
    }
}

impl<I: Read> Source for StdSource<I> {
    ghost use Rattle.disk_core.specs.HostStreams.{host_bytes};

    ghost left = { host_bytes I.remaining };

    ghost faults = { λ s. s.faults };

    ghost calls = { λ s. s.calls };

    /// One read of the host, which keeps no bytes back.
    fn take(&mut self, piece: &mut [u8]) -> Result<usize, Failed>
        ensures taken { Takes (host_bytes I.remaining self.old) (host_bytes I.remaining self.new) piece.old piece.new result }
        ensures cause { HasCause self.old.faults self.new.faults result }
        ensures counts { self.new.calls ≡ next_count self.old.calls }
        ensures done { OnOk result (HostDoes self.old self.new) }
        ensures failed { OnErr result (HostFails self.old self.new) }
    {
        self.calls = self.calls.saturating_add(1);
        let done = self.input.read(piece);
        count_fault(&mut self.faults, done)
    }
}
