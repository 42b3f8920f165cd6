//! The whole of a live run.
ghost use Rattle.std.specs.Prelude.{◌≡◌, ◌≢◌, ◌≤◌, ◌↔◌, ◌⊎◌, Err, IfSome, IsOk, IsSome, None, Some, [], false, length};
ghost use Rattle.disk_core.specs.Causes.{Rose};
ghost use Rattle.disk_core.specs.CountedSinks.{counted_faults, counted_given};
ghost use Rattle.disk_core.specs.Streams.{GivesFront, with_more};
ghost use Rattle.lane_scripts.specs.LaneScripts.{lane_script_of};
ghost use Rattle.lane_scripts.specs.NextLines.{AreFormed};
ghost use Rattle.pad_desk.specs.Machines.{HistoryOnDisk, IsFreshDisk};
ghost use Rattle.pad_live_core.specs.CommandLine.{is_live_form, live_script, seed_in};
ghost use Rattle.pad_live_core.specs.HistoryTexts.{live_rules, live_setting};
ghost use Rattle.pad_live_core.specs.LiveRuns.{IsRunOf, LiveRun, PrintsWhole, RanLanes, RanNoLane, RunsNoLane, ScriptRun};
ghost use Rattle.transcript.specs.PrintedLines.{mark_text};

use crate::bounds::live_histories_are_bounded;
use crate::command_line::live_seed;
use crate::gate::Gate;
use crate::live::run_lanes;
use crate::printing::print_history;
use crate::stop::Stop;
use disk_core::{Counted, PowerDisk, Sink, Source};
use flat_machine::laws::twins::twins_print_alike;
use lane_scripts::{Lanes, ScriptFault, read_lanes};
use local_check::StandardWork;
use pad_desk::History;
use pad_machine::Pad;
use std::alloc::Global;
use std::sync::Wait;
use std::thread::Threads;
use transcript::{PrintFault, Printer};

/// How a live run ended: its status, the number of the bad line at status 1 and 0 at all others, the whole history, and the
/// disk, which is lost only where memory was wanting.
#[derive(Drop)]
pub struct LiveEnded<D: PowerDisk + Drop> {
    pub status: u8,
    pub line: u32,
    pub history: History,
    pub disk: Option<D>,
}

/// Does what the words of the command line ask for, over a disk of which no call failed or was cut, and whose bytes are all
/// zero where it tells them.
///
/// `live` and `live seed H` read the lane script that the source has to its end, run each of its sixteen lanes on a thread of
/// its own and a worker beside them, and then give the text of the history to the sink. Before each line, and once after its
/// last, a lane passes the gate. The seed of the fill words is H, or 32 zero bytes.
///
/// The status is 0 where all lanes did all their lines and the text was printed; 1 where a line is outside the grammar: no
/// lane ran, and its mark alone was printed; 2 where the words are none of these; 3 where the source failed; 4 where the sink
/// failed; 5 where memory was wanting; 6 where a call met a full history, of 1,048,576 entries, whether or not the sink failed
/// then.
///
/// It waits for its lanes: all this holds if it returns.
pub fn run_live<
    R: Threads + Wait + Sync,
    S: Source,
    K: Sink,
    D: PowerDisk + Drop + Send,
    G: Gate + Sync,
>(
    rt: &R,
    alloc: Global,
    words: &[String],
    source: &mut S,
    sink: &mut Counted<K>,
    disk: D,
    gate: &G,
) -> LiveEnded<D>
    requires fresh { IsFreshDisk (D.state disk) }
    ensures statuses { result.status ≤ 6 }
    ensures line { result.status ≢ 1 → result.line ≡ 0 }

    // 2, usage: exactly by the words, and nothing is read or given.
    ensures usage { (result.status ≡ 2) ↔ (is_live_form words.now ≡ false) }
    ensures usage_reads_nothing { result.status ≡ 2 → source.new ≡ source.old }
    ensures usage_gives_nothing { result.status ≡ 2 → sink.new ≡ sink.old }

    // 1: the line is the first bad one, and its mark is given.
    ensures bad_line { result.status ≡ 1 → IfSome (live_script words.now (S.left source.old)) (λ script.
        (lane_script_of script).bad ≡ Some result.line) }
    ensures marked { result.status ≡ 1 → counted_given K.given sink.new ≡
        with_more (counted_given K.given sink.old) (mark_text result.line) }

    // 3 and 4: the source or the sink failed.
    ensures source_fault { result.status ≡ 3 → Rose (S.faults source.old) (S.faults source.new) }
    ensures unread_gives_nothing { result.status ≡ 3 → sink.new ≡ sink.old }
    ensures sink_fault { result.status ≡ 4 → Rose (counted_faults K.faults sink.old) (counted_faults K.faults sink.new) }

    // The script is read whole before a lane runs, and no lane runs where one of its lines is bad.
    ensures good { RanLanes result.status result.history → IfSome (live_script words.now (S.left source.old)) (λ script.
        (lane_script_of script).bad ≡ None) }
    ensures read { RanLanes result.status result.history → IfSome (live_script words.now (S.left source.old)) (λ _.
        S.left source.new ≡ Some []) }
    ensures no_lane { RunsNoLane result.status → RanNoLane result.history disk result.disk }
    ensures bad_runs_no_lane { IfSome (live_script words.now (S.left source.old)) (λ script.
        IsSome (lane_script_of script).bad → RanNoLane result.history disk result.disk) }

    // The history, in every status: legal, of this seed, and a shuffle of what the lanes and the worker did.
    ensures seed { IsRunOf live_rules (seed_in words.now) result.history }
    ensures run { ScriptRun (seed_in words.now) (live_script words.now (S.left source.old)) result.status result.history
        (counted_given K.given sink.old) (counted_given K.given sink.new) }

    // At 0, and at 6 unless the sink failed, its whole text is given.
    ensures printed { result.status ≡ 0 → PrintsWhole (seed_in words.now) result.history
        (counted_given K.given sink.old) (counted_given K.given sink.new) }
    ensures full_printed { result.status ≡ 6 → Rose (counted_faults K.faults sink.old) (counted_faults K.faults sink.new)
        ⊎ PrintsWhole (seed_in words.now) result.history (counted_given K.given sink.old) (counted_given K.given sink.new) }

    // The disk comes back with what the words of the history did to it.
    ensures disk_back { result.status ≢ 5 → IsSome result.disk }
    ensures disk { IfSome result.disk (λ left. HistoryOnDisk (live_setting (seed_in words.now)) result.history (D.state left)) }
{
    let Some(seed) = live_seed(words) else {
        return no_lane_ran(alloc, 2, disk);
    };
    match read_lanes(alloc, source) {
        Ok(lanes) => run_script(rt, alloc, seed, &lanes, sink, disk, gate),
        Err(ScriptFault::BadLine(line)) => end_at_bad_line(alloc, line, sink, disk),
        Err(ScriptFault::Failed) => no_lane_ran(alloc, 3, disk),
        Err(ScriptFault::NoMemory) => no_lane_ran(alloc, 5, disk),
    }
}

// Runs the lanes of a script that was read, and gives the text of their history to the sink.
fn run_script<R: Threads + Wait + Sync, K: Sink, D: PowerDisk + Drop + Send, G: Gate + Sync>(
    rt: &R,
    alloc: Global,
    seed: [u8; 32],
    lanes: &Lanes,
    sink: &mut Counted<K>,
    disk: D,
    gate: &G,
) -> LiveEnded<D>
    requires fresh { IsFreshDisk (D.state disk) }
    requires sixteen { length lanes.now ≡ 16 }
    requires formed { AreFormed lanes.now }
    ensures statuses { ((result.status ≡ 0) ⊎ (result.status ≡ 4)) ⊎ ((result.status ≡ 5) ⊎ (result.status ≡ 6)) }
    ensures line { result.line ≡ 0 }
    ensures sink_fault { result.status ≡ 4 → Rose (counted_faults K.faults sink.old) (counted_faults K.faults sink.new) }
    ensures seed { IsRunOf live_rules seed result.history }
    ensures run { LiveRun seed lanes.now None result.status result.history
        (counted_given K.given sink.old) (counted_given K.given sink.new) }
    ensures printed { result.status ≡ 0 → PrintsWhole seed result.history
        (counted_given K.given sink.old) (counted_given K.given sink.new) }
    ensures full_printed { result.status ≡ 6 → Rose (counted_faults K.faults sink.old) (counted_faults K.faults sink.new)
        ⊎ PrintsWhole seed result.history (counted_given K.given sink.old) (counted_given K.given sink.new) }
    ensures disk_back { result.status ≢ 5 → IsSome result.disk }
    ensures disk { IfSome result.disk (λ left. HistoryOnDisk (live_setting seed) result.history (D.state left)) }
{
    live_histories_are_bounded();
    twins_print_alike();
    let Ok(pad) = Pad::new(alloc, StandardWork, seed) else {
        return no_lane_ran(alloc, 5, disk);
    };
    let Ok(end) = run_lanes(rt, alloc, pad, disk, lanes.items(), gate) else {
        return disk_lost(alloc);
    };
    let printed = print_history(alloc, end.history.items(), sink);
    LiveEnded {
        status: status_of(end.stop, printed),
        line: 0,
        history: end.history,
        disk: Some(end.disk),
    }
}

// Gives the mark of the bad line with this number to the sink. No lane runs.
fn end_at_bad_line<K: Sink, D: PowerDisk + Drop>(
    alloc: Global,
    line: u32,
    sink: &mut Counted<K>,
    disk: D,
) -> LiveEnded<D>
    ensures statuses { (result.status ≡ 1) ⊎ ((result.status ≡ 4) ⊎ (result.status ≡ 5)) }
    ensures line { result.status ≡ 1 → result.line ≡ line }
    ensures no_line { result.status ≢ 1 → result.line ≡ 0 }
    ensures marked { result.status ≡ 1 → counted_given K.given sink.new ≡
        with_more (counted_given K.given sink.old) (mark_text line) }
    ensures front { GivesFront (counted_given K.given sink.old) (counted_given K.given sink.new) (mark_text line) }
    ensures sink_fault { result.status ≡ 4 → Rose (counted_faults K.faults sink.old) (counted_faults K.faults sink.new) }
    ensures no_lane { RanNoLane result.history disk result.disk }
{
    let mut printer = Printer::new(alloc);
    match printer.print_mark(line, sink) {
        Ok(()) => LiveEnded {
            line,
            ..no_lane_ran(alloc, 1, disk)
        },
        Err(PrintFault::Failed) => no_lane_ran(alloc, 4, disk),
        Err(PrintFault::NoMemory) => no_lane_ran(alloc, 5, disk),
    }
}

// A run that ended with this status before a lane ran.
fn no_lane_ran<D: PowerDisk + Drop>(alloc: Global, status: u8, disk: D) -> LiveEnded<D>
    ensures status { result.status ≡ status }
    ensures line { result.line ≡ 0 }
    ensures no_lane { RanNoLane result.history disk result.disk }
{
    LiveEnded {
        status,
        line: 0,
        history: History::empty(alloc),
        disk: Some(disk),
    }
}

// A run for which memory was wanting as its desk was made, with which the disk went.
fn disk_lost<D: PowerDisk + Drop>(alloc: Global) -> LiveEnded<D>
    ensures status { result.status ≡ 5 }
    ensures line { result.line ≡ 0 }
    ensures nothing { result.history ≡ [] }
    ensures disk { result.disk ≡ None }
{
    LiveEnded {
        status: 5,
        line: 0,
        history: History::empty(alloc),
        disk: None,
    }
}

// The status of a run whose lanes stopped so, and whose text was printed or not.
fn status_of(stop: Option<Stop>, printed: Result<(), PrintFault>) -> u8
    ensures statuses { ((result ≡ 0) ⊎ (result ≡ 4)) ⊎ ((result ≡ 5) ⊎ (result ≡ 6)) }
    ensures done { result ≡ 0 → (stop ≡ None) × IsOk printed }
    ensures unprinted { result ≡ 4 → (stop ≡ None) × (printed ≡ Err PrintFault.Failed) }
    ensures full { result ≡ 6 → (stop ≡ Some Stop.Full) × (printed ≢ Err PrintFault.NoMemory) }
    ensures met_full { stop ≡ Some Stop.Full → (result ≡ 6) ⊎ (result ≡ 5) }
{
    match (stop, printed) {
        (Some(Stop::NoMemory), _) => 5,
        (Some(Stop::Told), _) => 5,
        (_, Err(PrintFault::NoMemory)) => 5,
        (Some(Stop::Full), _) => 6,
        (None, Err(PrintFault::Failed)) => 4,
        (None, Ok(())) => 0,
    }
}
