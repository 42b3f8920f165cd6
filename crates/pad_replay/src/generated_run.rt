// The generated script run, and summed up.
ghost use Rattle.std.specs.Prelude.{List, None, ◌≡◌, ◌≢◌, ◌≤◌, [], length, ℕ};
ghost use Rattle.disk_core.specs.Causes.{Rose};
ghost use Rattle.disk_core.specs.CountedSinks.{counted_given, counted_faults};
ghost use Rattle.disk_core.specs.Streams.{GivesFront, with_more};
ghost use Rattle.flat_machine.specs.State.{opening};
ghost use Rattle.pad_machine.specs.Runs.{PadIsTied};
ghost use Rattle.pad_machine.specs.Stands.{StandsFor};
ghost use Rattle.pad_replay.specs.Tallies.{tally_text};

use crate::discard::Discard;
use crate::generated::GeneratedLines;
use crate::replay::Replay;
use crate::script_run::{Course, End, broken_off};
use crate::tally::Tally;
use disk_core::{ArmDisk, Counted, Sink, give_all};
use flat_machine::laws::disk_runs::{disk_runs_join, store_history_goes_on};
use pad_words::Octets;
use std::alloc::Global;

impl Replay {
    ghost use Rattle.pad_replay.specs.Endings.{LinesEnd};
    ghost use Rattle.pad_replay.specs.Generators.{IsWithin, lines_left};
    ghost use Rattle.pad_replay.specs.Replays.{progress_of};

    /// Runs the lines of a generated script, and prints none of them.
    pub fn run_generated<D: ArmDisk>(
        &mut self,
        alloc: Global,
        script: &mut GeneratedLines,
        disk: &mut D,
    ) -> Course
        requires within { IsWithin script.old }
        requires few { length (lines_left script.old) ≤ 100000 }
        requires fresh { self.old.pad.kept.shared.requests ≡ [] }
        requires told { self.old.words.items ≡ [] }
        requires tied { PadIsTied self.old.pad (D.state disk.old) }
        ensures ends { (seed : List ℕ) → StandsFor self.old.pad seed opening → LinesEnd seed (lines_left script.old) result
            (progress_of self.old None (D.state disk.old)) (progress_of self.new None (D.state disk.new)) }
        ensures others { (result.end ≢ End.BadLine) × ((result.end ≢ End.SourceFailed) × (result.end ≢ End.SinkFailed)) }
    {
        disk_runs_join::<D>();
        store_history_goes_on::<D>();
        let mut sink = Counted::new(Discard::new());
        let mut count = 0;
        loop {
            match script.next_line(alloc) {
                Ok(Some(line)) => match self.run_line(disk, line, &mut sink) {
                    Ok(()) => count += 1,
                    Err(stop) => return without_memory(broken_off(count, stop)),
                },
                Ok(None) => {
                    return Course {
                        end: End::Whole,
                        line: count,
                    };
                }
                Err(_) => {
                    return Course {
                        end: End::NoMemory,
                        line: count,
                    };
                }
            }
        }
    }
}

// A run that broke off where no sink can fail: memory was wanting.
fn without_memory(course: Course) -> Course
    ensures end { result.end ≡ End.NoMemory }
    ensures line { result.line ≡ course.line }
{
    Course {
        end: End::NoMemory,
        line: course.line,
    }
}

/// Sums up a run of so many rounds that ended so: where it is whole, gives the line of its summary to the sink. After a
/// fault a front of the line was given.
pub fn sum_up<K: Sink>(
    alloc: Global,
    end: End,
    rounds: u16,
    tally: &Tally,
    sink: &mut Counted<K>,
) -> End
    ensures whole { result ≡ End.Whole → (end ≡ End.Whole) ×
        (counted_given K.given sink.new ≡ with_more (counted_given K.given sink.old) (tally_text rounds tally.now)) }
    ensures front { end ≡ End.Whole →
        GivesFront (counted_given K.given sink.old) (counted_given K.given sink.new) (tally_text rounds tally.now) }
    ensures untold { end ≢ End.Whole → (result ≡ end) × (sink.new ≡ sink.old) }
    ensures sink_fault { end ≡ End.Whole → result ≡ End.SinkFailed →
        Rose (counted_faults K.faults sink.old) (counted_faults K.faults sink.new) }
    ensures others { end ≡ End.Whole → (result ≢ End.BadLine) × (result ≢ End.SourceFailed) }
{
    if end != End::Whole {
        return end;
    }
    let mut text = Octets::empty(alloc);
    let Ok(()) = tally.put_summary(alloc, u32::from(rounds), &mut text) else {
        return End::NoMemory;
    };
    match give_all(sink, text.items()) {
        Ok(()) => End::Whole,
        Err(_) => End::SinkFailed,
    }
}
