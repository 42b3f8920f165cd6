//! Scripts with as many lines as a script can have, and lines of as many bytes as a line can have, and with one more.

use crate::run::{Outcome, run_anew};
use crate::table::Table;
use std::alloc::{AllocError, Global};

/// How many lines are behind the first four, up to the most of a script, which is 65,536.
const BLANKS: u32 = 65_532;

/// How many letters a comment has, up to the most bytes of a line, which is 4,096.
const LETTERS: u32 = 4_095;

/// Four lines, and what is printed of them.
const FIRST: &str = "boot\nopen 1\nopen 1\nopen 1\n";

const PRINTED: &str = "\
> boot / loaded 0 first
> open 1
< 1 told open
> open 1
< 1 told ALREADYOPEN
> open 1
< 1 told ALREADYOPEN
";

/// The table of the longest script and the longest line, and of those that are longer by one, which are bad.
pub fn limits(alloc: Global) -> Result<Table, AllocError> {
    let mut table = Table::named(alloc, "the most lines, and the longest line");
    let script = format!(in alloc; "{FIRST}{}", repeated(alloc, "auto\n", BLANKS)?)?;
    let outcome = run_anew(alloc, script.as_str())?;
    let is_wanted = is_whole(&outcome, 65_536);
    table.compare("65,536 lines", is_wanted, &outcome)?;

    let longer = format!(in alloc; "{script}auto\n")?;
    let outcome = run_anew(alloc, longer.as_str())?;
    let is_wanted = is_bad_at(alloc, &outcome, 65_537)?;
    table.compare("65,537 lines", is_wanted, &outcome)?;

    let comment = format!(in alloc; "{FIRST}#{}", repeated(alloc, "a", LETTERS)?)?;
    let outcome = run_anew(alloc, format!(in alloc; "{comment}\n")?.as_str())?;
    let is_wanted = is_whole(&outcome, 5);
    table.compare("a comment of 4,096 bytes", is_wanted, &outcome)?;

    let outcome = run_anew(alloc, format!(in alloc; "{comment}a\nopen 1\n")?.as_str())?;
    let is_wanted = is_bad_at(alloc, &outcome, 5)?;
    table.compare("a comment of 4,097 bytes", is_wanted, &outcome)?;
    Ok(table)
}

// All the lines were run, so many of them, and the four steps printed.
fn is_whole(outcome: &Outcome, lines: u32) -> bool {
    outcome.is_ended(0, PRINTED) && outcome.line == lines && outcome.steps == 4
}

// The four steps were printed, and behind them the mark of this line.
fn is_bad_at(alloc: Global, outcome: &Outcome, line: u32) -> Result<bool, AllocError> {
    let marked = format!(in alloc; "{PRINTED}! bad line {line}\n")?;
    Ok(outcome.is_ended(1, marked.as_str()) && outcome.line == line && outcome.steps == 4)
}

// The text again and again, so many times.
fn repeated(alloc: Global, text: &str, count: u32) -> Result<String, AllocError> {
    let mut all = String::new(alloc);
    for _ in 0..count {
        all.push_str(text)?;
    }
    Ok(all)
}
