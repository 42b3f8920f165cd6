//! The script of ordinary use ends behind each of its bytes, each call of its source and of its sink fails, and its sink
//! is full at each length.

use crate::ordinary::{first_bytes, lines_reached, script};
use crate::run::{SOUND, Streams, run};
use crate::table::Table;
use disk_core::MemDisk;
use std::alloc::{AllocError, Global};

/// How many bytes the source gives in a call, and how many calls of it are tried. The script has 258 bytes, so the 38th
/// and the 259th call find the end.
const SOURCES: [(u32, u32); 2] = [(7, 40), (1, 261)];

/// How many calls of the sink are tried. The script has 16 steps.
const SINK_CALLS: u32 = 30;

/// The table of scripts that end anywhere: the line that is not whole is bad.
pub fn fronts(alloc: Global) -> Result<Table, AllocError> {
    let mut table = Table::named(alloc, "a script that ends behind each of its bytes");
    let script = script(alloc)?;
    for size in 0..=script.len() {
        let front = first_bytes(alloc, size)?;
        let bytes = script.as_bytes().get(..size).unwrap_or(b"");
        let outcome = run(alloc, bytes, SOUND, &mut MemDisk::new())?;
        let name = format!(in alloc; "{size} bytes")?;
        let bad = front.lines.saturating_add(1);
        let marked = format!(in alloc; "{}! bad line {bad}\n", front.printed)?;
        let is_ended = if front.is_whole {
            outcome.is_ended(0, front.printed.as_str()) && outcome.line == front.lines
        } else {
            outcome.is_ended(1, marked.as_str()) && outcome.line == bad
        };
        let is_wanted = is_ended && outcome.steps == steps_of(front.printed.as_str());
        table.compare(name.as_str(), is_wanted, &outcome)?;
    }
    Ok(table)
}

/// The table of a source of which each call fails, the one that finds the end too: the lines that were taken whole are
/// run and printed, and no others, and what was not taken is left.
pub fn sources(alloc: Global) -> Result<Table, AllocError> {
    let mut table = Table::named(alloc, "a fault in each call of the source");
    let script = script(alloc)?;
    for (piece, calls) in SOURCES {
        for call in 1..=calls {
            compare_source(alloc, script.as_str(), piece as usize, call, &mut table)?;
        }
    }
    Ok(table)
}

fn compare_source(
    alloc: Global,
    script: &str,
    piece: usize,
    call: u32,
    table: &mut Table,
) -> Result<(), AllocError> {
    let streams = Streams {
        piece,
        source_fails: Some(call),
        ..SOUND
    };
    let outcome = run(alloc, script.as_bytes(), streams, &mut MemDisk::new())?;
    let before = (call as usize).saturating_sub(1).saturating_mul(piece);
    let is_made = before < script.len().saturating_add(piece);
    let taken = before.min(script.len());
    let front = first_bytes(alloc, taken)?;
    let status = if is_made { 3 } else { 0 };
    let is_wanted = outcome.is_ended(status, front.printed.as_str())
        && outcome.line == front.lines
        && outcome.steps == steps_of(front.printed.as_str())
        && outcome.left == script.len() - taken;
    let name = format!(in alloc; "call {call} of a source of {piece} bytes a call fails")?;
    table.compare(name.as_str(), is_wanted, &outcome)
}

/// The table of a sink of which each call fails. The text of a step is one call, so that of the steps before it is
/// printed.
pub fn sinks(alloc: Global) -> Result<Table, AllocError> {
    let mut table = Table::named(alloc, "a fault in each call of the sink");
    let script = script(alloc)?;
    let whole = first_bytes(alloc, script.len())?;
    for call in 1..=SINK_CALLS {
        let streams = Streams {
            sink_fails: Some(call),
            ..SOUND
        };
        let outcome = run(alloc, script.as_bytes(), streams, &mut MemDisk::new())?;
        let printed = before_step(alloc, whole.printed.as_str(), call)?;
        let status = if printed.len() < whole.printed.len() {
            4
        } else {
            0
        };
        let name = format!(in alloc; "call {call} of the sink fails")?;
        table.compare(
            name.as_str(),
            outcome.is_ended(status, printed.as_str()),
            &outcome,
        )?;
    }
    Ok(table)
}

/// The table of a sink that is full at each length: the step whose text is cut is the last that is taken, its line the
/// last that is counted, and nothing behind that line is read.
pub fn rooms(alloc: Global) -> Result<Table, AllocError> {
    let mut table = Table::named(alloc, "a sink that is full at each length");
    let script = script(alloc)?;
    let whole = first_bytes(alloc, script.len())?;
    for room in 0..whole.printed.len() {
        let streams = Streams {
            piece: 1,
            room,
            ..SOUND
        };
        let outcome = run(alloc, script.as_bytes(), streams, &mut MemDisk::new())?;
        let printed = &whole.printed.as_bytes()[..room];
        let (lines, bytes) = lines_reached(room);
        let is_wanted = outcome.status == 4
            && outcome.printed.as_slice() == printed
            && outcome.line == lines
            && outcome.left == script.len().saturating_sub(bytes)
            && outcome.steps == steps_begun(whole.printed.as_str(), room);
        let name = format!(in alloc; "room for {room} bytes")?;
        table.compare(name.as_str(), is_wanted, &outcome)?;
    }
    Ok(table)
}

// How many steps are printed. The text of a step begins with `> `.
fn steps_of(printed: &str) -> usize {
    steps_begun(printed, printed.len())
}

// How many steps are printed whose text begins among the first bytes, or just behind them.
fn steps_begun(printed: &str, size: usize) -> usize {
    let mut steps: usize = 0;
    let mut at: usize = 0;
    for line in printed.lines() {
        if line.starts_with("> ") && at <= size {
            steps = steps.saturating_add(1);
        }
        at = at.saturating_add(line.len()).saturating_add(1);
    }
    steps
}

// What is printed before the step of this number, counted from 1. The text of a step begins with `> `.
fn before_step(alloc: Global, printed: &str, number: u32) -> Result<String, AllocError> {
    let mut before = String::new(alloc);
    let mut step: u32 = 0;
    for line in printed.lines() {
        if line.starts_with("> ") {
            step = step.saturating_add(1);
        }
        if step == number {
            return Ok(before);
        }
        before.push_str(line)?;
        before.push('\n')?;
    }
    Ok(before)
}
