// A script run as it comes.
ghost use Rattle.std.specs.Prelude.{List, ◌≡◌, ◌≢◌, ◌<◌, ◌≤◌, ◌+◌, ◌-◌, ◌^◌, ◌↔◌, [], IfSome, false, length, true, ℕ};
ghost use Rattle.disk_core.specs.Causes.{Rose};
ghost use Rattle.disk_core.specs.CountedSinks.{counted_given, counted_faults};
ghost use Rattle.disk_core.specs.Streams.{GivesFront, with_more};
ghost use Rattle.flat_machine.specs.State.{opening};
ghost use Rattle.pad_machine.specs.Runs.{PadIsTied};
ghost use Rattle.pad_machine.specs.Stands.{StandsFor};
ghost use Rattle.transcript.specs.PrintedLines.{mark_text};

use crate::replay::{Break, Replay};
use crate::script_reader::{Next, ReadFault, next_line};
use disk_core::{ArmDisk, Counted, Sink, Source};
use flat_machine::laws::disk_runs::{disk_runs_join, store_history_goes_on};
use flat_machine::laws::twins::twins_print_alike;
use script_lang::{LineReader, texts_end_once};
use std::alloc::Global;
use transcript::PrintFault;

/// Why the run of a script ended.
#[derive(Clone, Copy, Debug, PartialEq, Eq)]
pub enum End {
    /// The source is at its end.
    Whole,
    /// A line is outside the grammar.
    BadLine,
    /// The source failed.
    SourceFailed,
    /// The sink failed.
    SinkFailed,
    /// Memory was wanting.
    NoMemory,
}

/// How the run of a script went: why it ended, and the number of the bad line, or of the lines that were run.
#[derive(Clone, Copy, Debug, PartialEq, Eq)]
pub struct Course {
    pub end: End,
    pub line: u32,
}

impl Replay {
    ghost use Rattle.pad_replay.specs.Endings.{RunEnds};
    ghost use Rattle.pad_replay.specs.Replays.{progress_of};

    /// Runs the lines of a source as they come, to its end or to the first bad one, and prints the mark of that.
    pub fn run_script<S: Source, K: Sink, D: ArmDisk>(
        &mut self,
        alloc: Global,
        reader: &mut LineReader,
        source: &mut S,
        sink: &mut Counted<K>,
        disk: &mut D,
    ) -> Course
        requires new_reader { reader.old ≡ record { kept = []; lines = 0 } }
        requires fresh { self.old.pad.kept.shared.requests ≡ [] }
        requires told { self.old.words.items ≡ [] }
        requires tied { PadIsTied self.old.pad (D.state disk.old) }
        ensures ends { IfSome (S.left source.old) (λ script. (seed : List ℕ) → StandsFor self.old.pad seed opening →
            RunEnds seed script result (S.left source.new)
            (progress_of self.old (counted_given K.given sink.old) (D.state disk.old))
            (progress_of self.new (counted_given K.given sink.new) (D.state disk.new))) }
        ensures source_fault { result.end ≡ End.SourceFailed → Rose (S.faults source.old) (S.faults source.new) }
        ensures sink_fault { result.end ≡ End.SinkFailed →
            Rose (counted_faults K.faults sink.old) (counted_faults K.faults sink.new) }
    {
        disk_runs_join::<D>();
        store_history_goes_on::<D>();
        twins_print_alike();
        texts_end_once();
        let mut count = 0;
        loop {
            match next_line(alloc, reader, source) {
                Ok(Next::Line(line)) => match self.run_line(disk, line, sink) {
                    Ok(()) => count += 1,
                    Err(stop) => return broken_off(count, stop),
                },
                Ok(Next::End) => {
                    return Course {
                        end: End::Whole,
                        line: count,
                    };
                }
                Ok(Next::BadLine) => return self.end_at_bad_line(count, sink),
                Err(fault) => {
                    return Course {
                        end: end_of_reading(fault),
                        line: count,
                    };
                }
            }
        }
    }

    // Prints the mark of the bad line behind so many lines.
    fn end_at_bad_line<K: Sink>(&mut self, count: u32, sink: &mut Counted<K>) -> Course
        requires { count ≤ 65536 }
        ensures pad { self.new.pad ≡ self.old.pad }
        ensures words { self.new.words ≡ self.old.words }
        ensures marked { result.end ≡ End.BadLine → (result.line ≡ count + 1) ×
            (counted_given K.given sink.new ≡ with_more (counted_given K.given sink.old) (mark_text (count + 1))) }
        ensures broke { result.end ≢ End.BadLine → (result.line ≡ count) ×
            GivesFront (counted_given K.given sink.old) (counted_given K.given sink.new) (mark_text (count + 1)) }
        ensures others { (result.end ≢ End.Whole) × (result.end ≢ End.SourceFailed) }
        ensures sink_fault { result.end ≡ End.SinkFailed →
            Rose (counted_faults K.faults sink.old) (counted_faults K.faults sink.new) }
    {
        match self.printer.print_mark(count + 1, sink) {
            Ok(()) => Course {
                end: End::BadLine,
                line: count + 1,
            },
            Err(fault) => Course {
                end: end_of_printing(fault),
                line: count,
            },
        }
    }
}

/// How a run ends that broke off in a line behind so many others.
pub fn broken_off(count: u32, stop: Break) -> Course
    requires { count < 2 ^ 32 - 1 }
    ensures taken { stop.is_taken ≡ true → result.line ≡ count + 1 }
    ensures not_taken { stop.is_taken ≡ false → result.line ≡ count }
    ensures others { (result.end ≢ End.Whole) × ((result.end ≢ End.BadLine) × (result.end ≢ End.SourceFailed)) }
    ensures sink_fault { result.end ≡ End.SinkFailed → stop.fault ≡ PrintFault.Failed }
{
    Course {
        end: end_of_printing(stop.fault),
        line: if stop.is_taken { count + 1 } else { count },
    }
}

/// How a run ends of which not all was printed.
pub fn end_of_printing(fault: PrintFault) -> End
    ensures failed { (result ≡ End.SinkFailed) ↔ (fault ≡ PrintFault.Failed) }
    ensures memory { (result ≡ End.NoMemory) ↔ (fault ≡ PrintFault.NoMemory) }
    ensures others { (result ≢ End.Whole) × ((result ≢ End.BadLine) × (result ≢ End.SourceFailed)) }
{
    match fault {
        PrintFault::Failed => End::SinkFailed,
        PrintFault::NoMemory => End::NoMemory,
    }
}

fn end_of_reading(fault: ReadFault) -> End
    ensures failed { (result ≡ End.SourceFailed) ↔ (fault ≡ ReadFault.Failed) }
    ensures memory { (result ≡ End.NoMemory) ↔ (fault ≡ ReadFault.NoMemory) }
    ensures others { (result ≢ End.Whole) × ((result ≢ End.BadLine) × (result ≢ End.SinkFailed)) }
{
    match fault {
        ReadFault::Failed => End::SourceFailed,
        ReadFault::NoMemory => End::NoMemory,
    }
}
