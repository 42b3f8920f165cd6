//! Each call of the disk that a script makes is struck.

use crate::names::names_are_kept;
use crate::run::{Outcome, SOUND, run, run_anew};
use crate::table::Table;
use disk_core::{Calls, FlakyDisk, MemDisk};
use std::alloc::{AllocError, Global};

/// What strikes a call: the words before and behind its number.
const STRIKES: [(&str, &str); 4] = [
    ("cut", " fill 77"),
    ("cut", " old"),
    ("cut", " new"),
    ("fail", ""),
];

/// The lines behind the script. A strike in the first boot leaves the device off or stopped; the second boot loads.
const ENDING: &str = "off\nboot\noff\nboot\nopen 16\nask 16 names\n";

/// The table of a script that makes so many calls of the disk.
pub fn strikes(
    alloc: Global,
    name: &'static str,
    script: &str,
    calls: u32,
) -> Result<Table, AllocError> {
    let mut table = Table::named(alloc, name);
    for call in 1..=calls {
        for (before, behind) in STRIKES {
            let strike = format!(in alloc; "{before} {call}{behind}")?;
            let struck = format!(in alloc; "{strike}\n{script}{ENDING}")?;
            let outcome = run_anew(alloc, struck.as_str())?;
            let is_wanted = is_kept(alloc, &outcome)?;
            table.compare(strike.as_str(), is_wanted, &outcome)?;
        }
        fail_call(alloc, &mut table, script, call)?;
    }
    not_struck(alloc, &mut table, script, calls.saturating_add(1))?;
    Ok(table)
}

// One step was struck, and the names are kept.
fn is_kept(alloc: Global, outcome: &Outcome) -> Result<bool, AllocError> {
    let are_kept = names_are_kept(alloc, outcome.text())?;
    Ok(outcome.status == 0 && outcome.strikes == 1 && are_kept)
}

// This call of a flaky disk fails.
fn fail_call(alloc: Global, table: &mut Table, script: &str, call: u32) -> Result<(), AllocError> {
    let Some(fails) = Calls::of(&[call]) else {
        return Ok(());
    };
    let whole = format!(in alloc; "{script}{ENDING}")?;
    let mut disk = FlakyDisk::new(MemDisk::new(), fails);
    let outcome = run(alloc, whole.as_bytes(), SOUND, &mut disk)?;
    let name = format!(in alloc; "call {call} of a flaky disk fails")?;
    let is_wanted = is_kept(alloc, &outcome)?;
    table.compare(name.as_str(), is_wanted, &outcome)
}

// The script alone makes fewer calls than this.
fn not_struck(alloc: Global, table: &mut Table, script: &str, call: u32) -> Result<(), AllocError> {
    let armed = format!(in alloc; "fail {call}\n{script}")?;
    let outcome = run_anew(alloc, armed.as_str())?;
    let name = format!(in alloc; "fail {call}, behind the last call")?;
    let is_wanted = outcome.status == 0 && outcome.strikes == 0;
    table.compare(name.as_str(), is_wanted, &outcome)
}
