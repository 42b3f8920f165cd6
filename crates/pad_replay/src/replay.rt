// A replay: a pad run line by line, and printed.
ghost use Rattle.std.specs.Prelude.{List, ◌≡◌, ◌<◌, ◌≤◌, ◌+◌, ◌-◌, ◌^◌, [], IfErr, IfOk, IsSome, IsTrue, None, OnOk, false, length, true, ℕ};
ghost use Rattle.disk_core.specs.Causes.{Rose};
ghost use Rattle.disk_core.specs.CountedSinks.{counted_given, counted_faults};
ghost use Rattle.flat_machine.specs.Machine.{next_work};
ghost use Rattle.flat_machine.specs.RequestFacts.{draws, work_left};
ghost use Rattle.flat_machine.specs.State.{is_off, opening};
ghost use Rattle.pad_machine.specs.Runs.{PadIsTied};
ghost use Rattle.pad_machine.specs.Stands.{StandsFor};
ghost use Rattle.pad_replay.specs.Parts.{BreaksPart, RunsPart, TakesPart};
ghost use Rattle.pad_replay.specs.Tallies.{no_counts};
ghost use Rattle.pad_replay.specs.Runs.{auto_then, line_then, step_then};
ghost use Rattle.pad_steps.specs.Formed.{is_well_formed};
ghost use Rattle.script_lang.specs.Spelling.{is_spelled};

use crate::tally::Tally;
use disk_core::{ArmDisk, Counted, Sink};
use flat_machine::laws::disk_runs::{disk_runs_join, key_layout_tells_apart};
use local_check::StandardWork;
use pad_machine::Pad;
use pad_steps::{DiskWord, Outs, Step, Words};
use pad_words::NoMemory;
use script_lang::Line;
use std::alloc::Global;
use transcript::{PrintFault, Printer};

/// Where a run broke off: why, and whether all steps of the part that it was in were taken.
#[derive(Clone, Copy, Debug)]
pub struct Break {
    pub fault: PrintFault,
    pub is_taken: bool,
}

/// A replay: its pad, the words that the disk said, what was counted, and what each step uses again.
#[derive(Drop)]
pub struct Replay {
    pub(crate) pad: Pad<StandardWork>,
    pub(crate) words: Vec<DiskWord>,
    pub(crate) tally: Tally,
    outs: Outs,
    pub(crate) printer: Printer,
}

impl Replay {
    ghost use Rattle.pad_replay.specs.Replays.{progress_of};

    /// A replay of which nothing was run, with this seed of the fill words.
    pub fn new(alloc: Global, seed: [u8; 32]) -> Result<Replay, NoMemory>
        ensures stands { IfOk result (λ replay. StandsFor replay.pad seed opening) }
        ensures words { IfOk result (λ replay. replay.words.items ≡ []) }
        ensures tally { IfOk result (λ replay. replay.tally ≡ no_counts) }
    {
        Ok(Replay {
            pad: Pad::new(alloc, StandardWork, seed)?,
            words: Vec::new(alloc),
            tally: Tally::new(),
            outs: Outs::new(alloc)?,
            printer: Printer::new(alloc),
        })
    }

    /// The words of all steps that were taken.
    pub fn into_words(self) -> Words
        ensures { result ≡ self.words.items }
    {
        Words::of(self.words)
    }

    /// Runs a line: steps, a call that is armed, or nothing.
    pub fn run_line<K: Sink, D: ArmDisk>(
        &mut self,
        disk: &mut D,
        line: Line,
        sink: &mut Counted<K>,
    ) -> Result<(), Break>
        requires spelled { IsTrue (is_spelled line) }
        requires ids { length self.old.pad.kept.shared.requests < 2 ^ 32 - 2 }
        requires tied { PadIsTied self.old.pad (D.state disk.old) }
        ensures tied { OnOk result (PadIsTied self.new.pad (D.state disk.new)) }
        ensures ran { OnOk result (RunsPart (λ seed. line_then seed line)
            (progress_of self.old (counted_given K.given sink.old) (D.state disk.old))
            (progress_of self.new (counted_given K.given sink.new) (D.state disk.new))) }
        ensures broke { IfErr result (λ stop. BreaksPart (λ seed. line_then seed line) stop.is_taken
            (progress_of self.old (counted_given K.given sink.old) (D.state disk.old))
            (progress_of self.new (counted_given K.given sink.new) (D.state disk.new))) }
        ensures taken { IfErr result (λ stop. stop.is_taken ≡ true → TakesPart (λ seed. line_then seed line)
            (progress_of self.old (counted_given K.given sink.old) (D.state disk.old))
            (progress_of self.new (counted_given K.given sink.new) (D.state disk.new))) }
        ensures cause { IfErr result (λ stop. stop.fault ≡ PrintFault.Failed →
            Rose (counted_faults K.faults sink.old) (counted_faults K.faults sink.new)) }
        ensures later { counted_faults K.faults sink.old ≤ counted_faults K.faults sink.new }
        ensures ids { OnOk result (length self.new.pad.kept.shared.requests ≤ length self.old.pad.kept.shared.requests + 1) }
    {
        disk_runs_join::<D>();
        match line {
            Line::Blank => Ok(()),
            Line::Auto => self.take_due_steps(disk, sink),
            Line::Do(step) => self.take_step(disk, &step, sink),
            Line::Arm(call, strike) => {
                disk.arm(call, strike);
                Ok(())
            }
        }
    }

    // Takes the steps that are due, until none is.
    fn take_due_steps<K: Sink, D: ArmDisk>(
        &mut self,
        disk: &mut D,
        sink: &mut Counted<K>,
    ) -> Result<(), Break>
        requires ids { length self.old.pad.kept.shared.requests < 2 ^ 32 - 2 }
        requires tied { PadIsTied self.old.pad (D.state disk.old) }
        ensures tied { OnOk result (PadIsTied self.new.pad (D.state disk.new)) }
        ensures ran { OnOk result (RunsPart auto_then
            (progress_of self.old (counted_given K.given sink.old) (D.state disk.old))
            (progress_of self.new (counted_given K.given sink.new) (D.state disk.new))) }
        ensures broke { IfErr result (λ stop. BreaksPart auto_then stop.is_taken
            (progress_of self.old (counted_given K.given sink.old) (D.state disk.old))
            (progress_of self.new (counted_given K.given sink.new) (D.state disk.new))) }
        ensures taken { IfErr result (λ stop. stop.is_taken ≡ true → TakesPart auto_then
            (progress_of self.old (counted_given K.given sink.old) (D.state disk.old))
            (progress_of self.new (counted_given K.given sink.new) (D.state disk.new))) }
        ensures cause { IfErr result (λ stop. stop.fault ≡ PrintFault.Failed →
            Rose (counted_faults K.faults sink.old) (counted_faults K.faults sink.new)) }
        ensures later { counted_faults K.faults sink.old ≤ counted_faults K.faults sink.new }
        ensures ids { OnOk result (length self.new.pad.kept.shared.requests ≤ length self.old.pad.kept.shared.requests) }
    {
        disk_runs_join::<D>();
        while let Some(step) = self.pad.next_work() {
            match self.take_step(disk, &step, sink) {
                Ok(()) => {}
                Err(stop) => return Err(self.with_due_steps(stop)),
            }
        }
        Ok(())
    }

    // Where not all steps that were due are taken.
    fn with_due_steps(&self, stop: Break) -> Break
        ensures fault { result.fault ≡ stop.fault }
        ensures taken { result.is_taken ≡ true → (stop.is_taken ≡ true) × (next_work self.now.pad.kept.shared ≡ None) }
        ensures due { result.is_taken ≡ false → stop.is_taken ≡ true → IsSome (next_work self.now.pad.kept.shared) }
    {
        Break {
            fault: stop.fault,
            is_taken: stop.is_taken && self.pad.next_work().is_none(),
        }
    }

    // Takes a step over the disk, prints it, counts it and keeps its word.
    fn take_step<K: Sink, D: ArmDisk>(
        &mut self,
        disk: &mut D,
        step: &Step,
        sink: &mut Counted<K>,
    ) -> Result<(), Break>
        requires formed { IsTrue (is_well_formed step.now) }
        requires ids { length self.old.pad.kept.shared.requests < 2 ^ 32 - 2 }
        requires tied { PadIsTied self.old.pad (D.state disk.old) }
        ensures tied { OnOk result (PadIsTied self.new.pad (D.state disk.new)) }
        ensures ran { OnOk result (RunsPart (λ seed. step_then seed step.now)
            (progress_of self.old (counted_given K.given sink.old) (D.state disk.old))
            (progress_of self.new (counted_given K.given sink.new) (D.state disk.new))) }
        ensures broke { IfErr result (λ stop. BreaksPart (λ seed. step_then seed step.now) stop.is_taken
            (progress_of self.old (counted_given K.given sink.old) (D.state disk.old))
            (progress_of self.new (counted_given K.given sink.new) (D.state disk.new))) }
        ensures taken { IfErr result (λ stop. stop.is_taken ≡ true → TakesPart (λ seed. step_then seed step.now)
            (progress_of self.old (counted_given K.given sink.old) (D.state disk.old))
            (progress_of self.new (counted_given K.given sink.new) (D.state disk.new))) }
        ensures cause { IfErr result (λ stop. stop.fault ≡ PrintFault.Failed →
            Rose (counted_faults K.faults sink.old) (counted_faults K.faults sink.new)) }
        ensures later { counted_faults K.faults sink.old ≤ counted_faults K.faults sink.new }
        ensures less { OnOk result (is_off self.old.pad.kept.shared.device ≡ false → next_work self.old.pad.kept.shared ≡ Some step.now →
            work_left self.new.pad.kept.shared.requests < work_left self.old.pad.kept.shared.requests) }
        ensures ids { OnOk result (length self.new.pad.kept.shared.requests ≤ length self.old.pad.kept.shared.requests + draws step.now) }
    {
        disk_runs_join::<D>();
        key_layout_tells_apart();
        let is_masked = self.pad.is_masked(step);
        self.outs.clear();
        let Ok(()) = self.words.reserve(1) else {
            return Err(not_taken());
        };
        let Ok(stepped) = self.pad.step(disk, step, &mut self.outs) else {
            return Err(not_taken());
        };
        let printed = self.printer.print_step(
            step,
            is_masked,
            &stepped.word,
            stepped.fate,
            &self.outs,
            sink,
        );
        self.tally.count_step(&stepped.word, &self.outs);
        self.words.push_reserved(stepped.word);
        match printed {
            Ok(()) => Ok(()),
            Err(fault) => Err(Break {
                fault,
                is_taken: true,
            }),
        }
    }
}

// Memory was wanting before a step was taken.
fn not_taken() -> Break
    ensures fault { result.fault ≡ PrintFault.NoMemory }
    ensures taken { result.is_taken ≡ false }
{
    Break {
        fault: PrintFault::NoMemory,
        is_taken: false,
    }
}
