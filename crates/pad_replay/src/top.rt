// The whole of the program.
ghost use Rattle.std.specs.Prelude.{◌≡◌, ◌≢◌, ◌≤◌, ◌↔◌, ◌⊎◌, IfSome, IsSome, [], false, length, ℕ};
ghost use Rattle.disk_core.specs.Causes.{Rose};
ghost use Rattle.disk_core.specs.CountedSinks.{counted_given, counted_faults};
ghost use Rattle.flat_machine.specs.State.{opening};
ghost use Rattle.pad_machine.specs.Stands.{StandsFor};
ghost use Rattle.pad_replay.specs.CommandLine.{is_form, rounds_in, script_in, seed_in, zero_seed};
ghost use Rattle.pad_replay.specs.Generated.{generated_lines};
ghost use Rattle.pad_replay.specs.Outcomes.{EndsAtBadLine, EndsUnread, EndsWell, GaveFront, RanEach, RanRounds, RanSoMany, SumsUp};
ghost use Rattle.pad_replay.specs.Parts.{RunsOnDisk};
ghost use Rattle.pad_replay.specs.Runs.{deeds_of};
ghost use Rattle.pad_replay.specs.Script.{lines_of};

use crate::command_line::{Request, request_of};
use crate::generated::GeneratedLines;
use crate::generated_run::sum_up;
use crate::replay::Replay;
use crate::script_run::End;
use disk_core::{ArmDisk, Counted, Sink, Source};
use flat_machine::laws::disk_runs::{disk_runs_join, store_history_goes_on};
use flat_machine::laws::twins::twins_print_alike;
use pad_steps::Words;
use script_lang::LineReader;
use std::alloc::Global;

/// How a run ended: its status, a number of lines, and the words of its steps in order.
#[derive(Drop)]
pub struct Ended {
    pub status: u8,
    pub line: u32,
    pub words: Words,
}

/// Does what the words of the command line ask for, over the disk. The device is off at first.
///
/// `replay`, `replay seed H`, `replay store P` and `replay store P seed H` replay the script that the source has, line by
/// line as it comes, and give its transcript to the sink, each step before the next line is asked for. `gen N`, with N from
/// 1 to 5,000 without a leading zero, replays the generated script of N rounds, of at most 55,008 lines, reads nothing, and
/// gives one line of summary to the sink. The seed of the fill words is H, or 32 zero bytes.
///
/// The status is 0 where all was run and printed; 1 where a line of the source is outside the grammar: all before it was run
/// and printed, and its mark; 2 where the words are none of these; 3 where the source failed; 4 where the sink failed; 5
/// where memory was wanting. `line` is the number of the bad line at status 1, and the number of lines that were run at all
/// others.
pub fn run_pinpad<S: Source, K: Sink, D: ArmDisk>(
    alloc: Global,
    words: &[String],
    source: &mut S,
    sink: &mut Counted<K>,
    disk: &mut D,
) -> Ended
    ensures statuses { result.status ≤ 5 }

    // 2, usage: exactly by the words, and nothing is read, given or run.
    ensures usage { (result.status ≡ 2) ↔ (is_form words.now ≡ false) }
    ensures usage_reads_nothing { result.status ≡ 2 → source.new ≡ source.old }
    ensures usage_gives_nothing { result.status ≡ 2 → sink.new ≡ sink.old }
    ensures usage_keeps_disk { result.status ≡ 2 → disk.new ≡ disk.old }
    ensures usage_runs_nothing { result.status ≡ 2 → (result.words ≡ []) × (result.line ≡ 0) }

    // 0: the script ended, and all of it was run and printed. 1: all before the first bad line, and its mark.
    ensures whole { result.status ≡ 0 → IfSome (script_in words.now (S.left source.old)) (λ script. EndsWell (seed_in words.now) script result.words
        result.line (S.left source.new) (counted_given K.given sink.old) (counted_given K.given sink.new) (D.state disk.old) (D.state disk.new)) }
    ensures bad_line { result.status ≡ 1 → IfSome (script_in words.now (S.left source.old)) (λ script. EndsAtBadLine (seed_in words.now) script result.words
        result.line (counted_given K.given sink.old) (counted_given K.given sink.new) (D.state disk.old) (D.state disk.new)) }

    // 3 and 4: the source or the sink failed. At 3 just the lines that were taken whole were run and printed.
    ensures source_fault { result.status ≡ 3 → Rose (S.faults source.old) (S.faults source.new) }
    ensures unread { result.status ≡ 3 → IfSome (script_in words.now (S.left source.old)) (λ script. EndsUnread (seed_in words.now) script result.words
        result.line (S.left source.new) (counted_given K.given sink.old) (counted_given K.given sink.new) (D.state disk.old) (D.state disk.new)) }
    ensures sink_fault { result.status ≡ 4 → Rose (counted_faults K.faults sink.old) (counted_faults K.faults sink.new) }

    // In every status a front of the text of the words was given, and they are those of the lines that were run.
    ensures front { IfSome (script_in words.now (S.left source.old)) (λ script. GaveFront (seed_in words.now) script result.words
        (counted_given K.given sink.old) (counted_given K.given sink.new)) }
    ensures lines { result.status ≢ 1 → IfSome (script_in words.now (S.left source.old)) (λ script.
        RanSoMany (seed_in words.now) (lines_of script).lines result.words result.line) }

    // The disk, in every status: what the steps and armings did to it that the words play.
    ensures on_disk { IfSome (script_in words.now (S.left source.old)) (λ script.
        RunsOnDisk (seed_in words.now) (deeds_of (seed_in words.now) script result.words) (D.state disk.old) (D.state disk.new)) }

    // `gen N`: nothing is read. 0: all lines were run and summed up. 4: all were run, and the sink failed.
    ensures generated_statuses { IfSome (rounds_in words.now) (λ _. (result.status ≢ 1) × (result.status ≢ 3)) }
    ensures generated_reads_nothing { IsSome (rounds_in words.now) → source.new ≡ source.old }
    ensures generated_whole { result.status ≡ 0 → IfSome (rounds_in words.now) (λ rounds. SumsUp (seed_in words.now) rounds result.words
        result.line (counted_given K.given sink.old) (counted_given K.given sink.new) (D.state disk.old) (D.state disk.new)) }
    ensures generated_sink_fault { result.status ≡ 4 → IfSome (rounds_in words.now) (λ rounds.
        RanEach (seed_in words.now) (generated_lines rounds) result.words result.line (D.state disk.old) (D.state disk.new)) }
    ensures generated { IfSome (rounds_in words.now) (λ rounds. RanRounds (seed_in words.now) rounds result.words
        result.line (counted_given K.given sink.old) (counted_given K.given sink.new) (D.state disk.old) (D.state disk.new)) }
{
    disk_runs_join::<D>();
    store_history_goes_on::<D>();
    twins_print_alike();
    let Some(request) = request_of(words) else {
        return stopped(alloc, 2);
    };
    let seed = match request {
        Request::Replay(_, seed) => seed,
        Request::Generated(rounds) => return run_rounds(alloc, rounds, sink, disk),
    };
    let Ok(mut replay) = Replay::new(alloc, seed) else {
        return stopped(alloc, 5);
    };
    let Ok(mut reader) = LineReader::new(alloc) else {
        return stopped(alloc, 5);
    };
    let course = replay.run_script(alloc, &mut reader, source, sink, disk);
    Ended {
        status: status_of(course.end),
        line: course.line,
        words: replay.into_words(),
    }
}

// Runs the generated script of so many rounds, and gives its summary to the sink.
fn run_rounds<K: Sink, D: ArmDisk>(
    alloc: Global,
    rounds: u16,
    sink: &mut Counted<K>,
    disk: &mut D,
) -> Ended
    requires { rounds ≤ 5000 }
    ensures statuses { (result.status ≡ 0) ⊎ ((result.status ≡ 4) ⊎ (result.status ≡ 5)) }
    ensures whole { result.status ≡ 0 → SumsUp zero_seed rounds result.words result.line
        (counted_given K.given sink.old) (counted_given K.given sink.new) (D.state disk.old) (D.state disk.new) }
    ensures sink_fault { result.status ≡ 4 → Rose (counted_faults K.faults sink.old) (counted_faults K.faults sink.new) }
    ensures printed { result.status ≡ 4 → RanEach zero_seed (generated_lines rounds) result.words result.line
        (D.state disk.old) (D.state disk.new) }
    ensures ran { RanRounds zero_seed rounds result.words result.line
        (counted_given K.given sink.old) (counted_given K.given sink.new) (D.state disk.old) (D.state disk.new) }
{
    disk_runs_join::<D>();
    store_history_goes_on::<D>();
    let Ok(mut replay) = Replay::new(alloc, [0; 32]) else {
        return stopped(alloc, 5);
    };
    let mut script = GeneratedLines::new(rounds);
    let course = replay.run_generated(alloc, &mut script, disk);
    let end = sum_up(alloc, course.end, rounds, &replay.tally, sink);
    Ended {
        status: status_of(end),
        line: course.line,
        words: replay.into_words(),
    }
}

// The status of a run that ended so.
fn status_of(end: End) -> u8
    ensures whole { (result ≡ 0) ↔ (end ≡ End.Whole) }
    ensures bad_line { (result ≡ 1) ↔ (end ≡ End.BadLine) }
    ensures source_fault { (result ≡ 3) ↔ (end ≡ End.SourceFailed) }
    ensures sink_fault { (result ≡ 4) ↔ (end ≡ End.SinkFailed) }
    ensures memory { (result ≡ 5) ↔ (end ≡ End.NoMemory) }
    ensures others { (result ≢ 2) × (result ≤ 5) }
{
    match end {
        End::Whole => 0,
        End::BadLine => 1,
        End::SourceFailed => 3,
        End::SinkFailed => 4,
        End::NoMemory => 5,
    }
}

// A run that ended before a line was run.
fn stopped(alloc: Global, status: u8) -> Ended
    ensures status { result.status ≡ status }
    ensures line { result.line ≡ 0 }
    ensures words { result.words ≡ [] }
{
    Ended {
        status,
        line: 0,
        words: Words::empty(alloc),
    }
}
