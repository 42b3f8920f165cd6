//! A writer of the library as a sink, as standard output is. A sink over a writer that tells its bytes tells them too.
//! No contract can say which bytes reach standard output, so it tells none.
ghost use Rattle.std.specs.Prelude.{◌≡◌, OnOk, OnErr};
ghost use Rattle.disk_core.specs.Causes.{HasCause, next_count};
ghost use Rattle.disk_core.specs.HostStreams.{fresh_host, host_bytes, HostDoes, HostFails};
ghost use Rattle.disk_core.specs.Streams.{Gives};

use crate::host_faults::count_fault;
use crate::traits::{Failed, Sink};
use std::io::{Print, Printer, Write, writer};
use std::marker::Model;
use std::snapshot::Snapshot;

/// A writer of the library. Contracts see the writer and its count of faults.
#[derive(Drop)]
pub struct StdSink<W: Write> {
    output: W,
    first: Snapshot<W>,
    calls: u64,
    faults: u64,
}

impl<W: Write> Model for StdSink<W> {
    ghost use Rattle.disk_core.specs.HostStreams.{HostState, StaysTold};

    ghost Value = { HostState W };

    ghost view = { λ s. record { host = s.output; first = s.first.value; calls = s.calls; faults = s.faults } };

    ghost invariant = { λ s. StaysTold (W.contents s.first.value) (W.contents s.output) };
}

impl<W: Write> StdSink<W> {
    /// This writer, with no fault yet.
    pub fn of(output: W) -> StdSink<W>
        ensures { result ≡ fresh_host output }
    {
        StdSink {
            first: Snapshot::of(&output),
            output,
            calls: 0,
            faults: 0,
        }
    }
}

impl<'a, R: Print> StdSink<Printer<'a, R>> {
    /// The standard output of `rt`, with no fault yet.
    pub fn new(rt: &'a R) -> StdSink<Printer<'a, R>>
        ensures calls { result.calls ≡ 0 }
        ensures faults { result.faults ≡ 0 }
        ensures first { result.first ≡ result.host }
    {
        StdSink::of(writer(rt))
    }
}

impl<W: Write> Sink for StdSink<W> {
    ghost use Rattle.disk_core.specs.HostStreams.{host_bytes};

    ghost given = { host_bytes W.contents };

    ghost faults = { λ s. s.faults };

    ghost calls = { λ s. s.calls };

    /// One write of the host. Standard output has no buffer, so nothing is left to be flushed: the bytes that it
    /// answers have been handed to the system.
    fn give(&mut self, piece: &[u8]) -> Result<usize, Failed>
        ensures gives { Gives (host_bytes W.contents self.old) (host_bytes W.contents self.new) piece.now result }
        ensures cause { HasCause self.old.faults self.new.faults result }
        ensures counts { self.new.calls ≡ next_count self.old.calls }
        ensures done { OnOk result (HostDoes self.old self.new) }
        ensures failed { OnErr result (HostFails self.old self.new) }
    {
        self.calls = self.calls.saturating_add(1);
        let done = self.output.write(piece);
        count_fault(&mut self.faults, done)
    }
}
