//! A run: a script, and what it prints.

use disk_core::{Calls, Counted, MemDisk, MemSink, MemSource};
use pad_replay::run_pinpad;
use pad_words::{NoMemory, Octets};
use std::alloc::Global;

/// The most bytes that a run prints.
const ROOM: usize = 65_536;

/// A run: its name, its script, and what is to be printed.
#[derive(Drop)]
pub struct Run {
    name: String,
    script: Octets,
    wanted: Octets,
}

impl Run {
    // A run of no lines.
    fn named(alloc: Global, name: &str) -> Result<Run, NoMemory> {
        Ok(Run {
            name: String::from_str(alloc, name).map_err(|_| NoMemory)?,
            script: Octets::empty(alloc),
            wanted: Octets::empty(alloc),
        })
    }

    // Takes a line of the script, or of what is printed.
    fn take(&mut self, line: &str) -> Result<(), NoMemory> {
        let text = if is_printed(line) {
            &mut self.wanted
        } else {
            &mut self.script
        };
        text.append(line.as_bytes())?;
        text.push(b'\n')
    }

    /// Replays the script over a new disk, and tells the name and what was printed where that is not as wanted.
    pub fn tell(&self, alloc: Global, told: &mut String) -> Result<(), NoMemory> {
        let mut words = Vec::new(alloc);
        let word = String::from_str(alloc, "replay").map_err(|_| NoMemory)?;
        words.push(word).map_err(|_| NoMemory)?;
        let script = Octets::copy(alloc, self.script.items())?;
        let mut source = MemSource::new(script, 4096, no_calls());
        let mut sink = Counted::new(MemSink::new(alloc, ROOM, no_calls())?);
        run_pinpad(
            alloc,
            words.as_slice(),
            &mut source,
            &mut sink,
            &mut MemDisk::new(),
        );
        let printed = sink.inner().bytes();
        if printed == self.wanted.items() {
            return Ok(());
        }
        told.push_str(self.name.as_str()).map_err(|_| NoMemory)?;
        told.push_str(" prints\n").map_err(|_| NoMemory)?;
        match str::from_utf8(printed) {
            Ok(text) => told.push_str(text).map_err(|_| NoMemory),
            Err(_) => Ok(()),
        }
    }
}

// No call fails.
fn no_calls() -> Calls {
    match Calls::of(&[]) {
        Some(calls) => calls,
        None => unreachable!(),
    }
}

// The line is one of what is printed.
fn is_printed(line: &str) -> bool {
    line.starts_with("> ") || line.starts_with("< ") || line.starts_with("! ")
}

/// The runs of a text, in order. What stands in front of the first name is no run.
pub fn runs_of(alloc: Global, text: &str) -> Result<Vec<Run>, NoMemory> {
    let mut runs = Vec::new(alloc);
    let mut run = None;
    for line in text.lines() {
        match (line.strip_prefix("== "), &mut run) {
            (Some(name), _) => {
                if let Some(done) = run.replace(Run::named(alloc, name)?) {
                    runs.push(done).map_err(|_| NoMemory)?;
                }
            }
            (None, Some(current)) => current.take(line)?,
            (None, None) => {}
        }
    }
    if let Some(last) = run {
        runs.push(last).map_err(|_| NoMemory)?;
    }
    Ok(runs)
}
