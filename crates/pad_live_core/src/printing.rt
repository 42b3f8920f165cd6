//! The text of a history, given to a sink.
ghost use Rattle.std.specs.Prelude.{◌≡◌, ◌≤◌, Err, IsTrue, OnErr, OnOk};
ghost use Rattle.disk_core.specs.Causes.{Rose};
ghost use Rattle.disk_core.specs.CountedSinks.{counted_faults, counted_given};
ghost use Rattle.disk_core.specs.Streams.{GivesFront, with_more};
ghost use Rattle.pad_live_core.specs.HistoryTexts.{AreFormed, entry_text, history_text};
ghost use Rattle.pad_steps.specs.Formed.{is_well_formed};

use disk_core::{Counted, Sink};
use pad_desk::StepOut;
use pad_steps::Step;
use std::alloc::Global;
use transcript::{PrintFault, Printer};
use turnstile::Entry;

/// Gives the text of a history to the sink, entry by entry. After a fault a front of it was given.
pub fn print_history<K: Sink>(
    alloc: Global,
    history: &[Entry<Step, StepOut>],
    sink: &mut Counted<K>,
) -> Result<(), PrintFault>
    requires { AreFormed history.now }
    ensures whole { OnOk result (counted_given K.given sink.new ≡
        with_more (counted_given K.given sink.old) (history_text history.now)) }
    ensures front { OnErr result (GivesFront (counted_given K.given sink.old) (counted_given K.given sink.new)
        (history_text history.now)) }
    ensures later { counted_faults K.faults sink.old ≤ counted_faults K.faults sink.new }
    ensures cause { result ≡ Err PrintFault.Failed →
        Rose (counted_faults K.faults sink.old) (counted_faults K.faults sink.new) }
{
    let mut printer = Printer::new(alloc);
    for entry in history {
        match print_entry(&mut printer, entry, sink) {
            Ok(()) => {}
            Err(fault) => return Err(fault),
        }
    }
    Ok(())
}

// Gives the text of an entry.
fn print_entry<K: Sink>(
    printer: &mut Printer,
    entry: &Entry<Step, StepOut>,
    sink: &mut Counted<K>,
) -> Result<(), PrintFault>
    requires { IsTrue (is_well_formed entry.now.op) }
    ensures ok { OnOk result (counted_given K.given sink.new ≡
        with_more (counted_given K.given sink.old) (entry_text entry.now)) }
    ensures err { OnErr result (GivesFront (counted_given K.given sink.old) (counted_given K.given sink.new)
        (entry_text entry.now)) }
    ensures later { counted_faults K.faults sink.old ≤ counted_faults K.faults sink.new }
    ensures cause { result ≡ Err PrintFault.Failed →
        Rose (counted_faults K.faults sink.old) (counted_faults K.faults sink.new) }
{
    let said = &entry.outcome;
    printer.print_step(
        &entry.op,
        said.masked,
        &said.word,
        said.fate,
        said.outs.outs(),
        sink,
    )
}
