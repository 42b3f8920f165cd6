//! The text of a step given to a sink.
ghost use Rattle.std.specs.Prelude.{◌≡◌, ◌≤◌, IfSome, IsTrue, OnOk, OnErr, Err};
ghost use Rattle.std.specs.Option.{option_copied};
ghost use Rattle.disk_core.specs.Causes.{Rose};
ghost use Rattle.disk_core.specs.CountedSinks.{counted_given, counted_faults};
ghost use Rattle.disk_core.specs.Streams.{GivesFront, with_more};
ghost use Rattle.pad_steps.specs.Formed.{is_well_formed};
ghost use Rattle.transcript.specs.PrintedLines.{line_text, line_of_shown, line_of_step, mark_text};

use crate::lines::{put_line, put_mark};
use disk_core::{Counted, Sink, give_all};
use pad_steps::{DiskWord, Fate, Outs, Step};
use pad_words::Octets;
use script_lang::writing::shown_step;
use std::alloc::Global;

/// Why a text was not printed whole.
#[derive(Clone, Copy, Debug, PartialEq, Eq)]
pub enum PrintFault {
    /// The sink failed.
    Failed,
    /// Memory was wanting. Nothing was given to the sink.
    NoMemory,
}

/// Prints the steps of a run one after the other. The memory of a step's text serves the next step again.
#[derive(Drop)]
pub struct Printer {
    alloc: Global,
    text: Octets,
}

impl Printer {
    /// A printer that has printed nothing.
    pub fn new(alloc: Global) -> Printer {
        Printer {
            alloc,
            text: Octets::empty(alloc),
        }
    }

    /// Gives the text of a step to the sink: the step with the disk's word on one line, `press *` where it is
    /// masked, and a line for each out. After a fault a front of the text was given.
    pub fn print_step<K: Sink>(
        &mut self,
        step: &Step,
        masked: bool,
        word: &DiskWord,
        fate: Option<Fate>,
        outs: &Outs,
        sink: &mut Counted<K>,
    ) -> Result<(), PrintFault>
        requires { IsTrue (is_well_formed step.now) }
        ensures ok { OnOk result (counted_given K.given sink.new ≡
            with_more (counted_given K.given sink.old) (line_text (line_of_step step.now masked word.now fate outs.now.items))) }
        ensures err { OnErr result (GivesFront (counted_given K.given sink.old) (counted_given K.given sink.new)
            (line_text (line_of_step step.now masked word.now fate outs.now.items))) }
        ensures memory { result ≡ Err PrintFault.NoMemory → sink.new ≡ sink.old }
        ensures later { counted_faults K.faults sink.old ≤ counted_faults K.faults sink.new }
        ensures cause { result ≡ Err PrintFault.Failed → Rose (counted_faults K.faults sink.old) (counted_faults K.faults sink.new) }
    {
        self.print_shown(shown_step(step, masked), word, fate, outs, sink)
    }

    /// Gives the mark of a bad line with this number to the sink. After a fault a front of the mark was given.
    pub fn print_mark<K: Sink>(
        &mut self,
        line: u32,
        sink: &mut Counted<K>,
    ) -> Result<(), PrintFault>
        ensures ok { OnOk result (counted_given K.given sink.new ≡
            with_more (counted_given K.given sink.old) (mark_text line)) }
        ensures err { OnErr result (GivesFront (counted_given K.given sink.old) (counted_given K.given sink.new) (mark_text line)) }
        ensures memory { result ≡ Err PrintFault.NoMemory → sink.new ≡ sink.old }
        ensures later { counted_faults K.faults sink.old ≤ counted_faults K.faults sink.new }
        ensures cause { result ≡ Err PrintFault.Failed → Rose (counted_faults K.faults sink.old) (counted_faults K.faults sink.new) }
    {
        self.text.clear();
        match put_mark(self.alloc, line, &mut self.text) {
            Ok(()) => give_text(self.text.items(), sink),
            Err(_) => Err(PrintFault::NoMemory),
        }
    }

    // Gives the text of a step as it is shown. It sees no key of a masked press.
    fn print_shown<K: Sink>(
        &mut self,
        shown: Option<&Step>,
        word: &DiskWord,
        fate: Option<Fate>,
        outs: &Outs,
        sink: &mut Counted<K>,
    ) -> Result<(), PrintFault>
        requires { IfSome shown (λ step. IsTrue (is_well_formed step.now)) }
        ensures ok { OnOk result (counted_given K.given sink.new ≡
            with_more (counted_given K.given sink.old) (line_text (line_of_shown (option_copied shown.entry) word.now fate outs.now.items))) }
        ensures err { OnErr result (GivesFront (counted_given K.given sink.old) (counted_given K.given sink.new)
            (line_text (line_of_shown (option_copied shown.entry) word.now fate outs.now.items))) }
        ensures memory { result ≡ Err PrintFault.NoMemory → sink.new ≡ sink.old }
        ensures later { counted_faults K.faults sink.old ≤ counted_faults K.faults sink.new }
        ensures cause { result ≡ Err PrintFault.Failed → Rose (counted_faults K.faults sink.old) (counted_faults K.faults sink.new) }
    {
        self.text.clear();
        let Ok(()) = put_line(self.alloc, shown, word, fate, outs.items(), &mut self.text) else {
            return Err(PrintFault::NoMemory);
        };
        give_text(self.text.items(), sink)
    }
}

// Gives a text that stands in memory.
fn give_text<K: Sink>(text: &[u8], sink: &mut Counted<K>) -> Result<(), PrintFault>
    ensures ok { OnOk result (counted_given K.given sink.new ≡ with_more (counted_given K.given sink.old) text.now) }
    ensures err { OnErr result (GivesFront (counted_given K.given sink.old) (counted_given K.given sink.new) text.now) }
    ensures memory { result ≡ Err PrintFault.NoMemory → ⊥ }
    ensures later { counted_faults K.faults sink.old ≤ counted_faults K.faults sink.new }
    ensures cause { result ≡ Err PrintFault.Failed → Rose (counted_faults K.faults sink.old) (counted_faults K.faults sink.new) }
{
    match give_all(sink, text) {
        Ok(()) => Ok(()),
        Err(_) => Err(PrintFault::Failed),
    }
}
