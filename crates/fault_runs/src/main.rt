//! Makes each call of the disk fail, and the power be cut in it, each call of a source and of a sink fail, a script end
//! and a sink be full anywhere, and a script and a line be as long as can be, and compares what is printed with what must be.
//!
//! A line is printed for each table of runs, with its name and how many were compared, and below it each run that ended
//! otherwise than it must. The status is 0 where there is none, and else 1; 5 where memory was wanting. The folder
//! `data` has the scripts that are struck in each of their calls of the disk, as they stand in `examples`. A file `store`
//! is made where the program runs, and removed.
#![tactic(auto)]

mod endings;
mod erasures;
mod file_stores;
mod limits;
mod loadings;
mod memory;
mod names;
mod ordinary;
mod run;
mod stores;
mod streams;
mod strikes;
mod table;

use crate::endings::{endings, forms};
use crate::erasures::erasures;
use crate::file_stores::file_stores;
use crate::limits::limits;
use crate::loadings::{boots, flaky_imports};
use crate::memory::lists;
use crate::stores::bad_stores;
use crate::streams::{fronts, rooms, sinks, sources};
use crate::strikes::strikes;
use crate::table::Table;
use std::alloc::{AllocError, Global};
use std::process::ExitCode;
use std::{fs, io};

/// The scripts of the folder `data`, and how many calls of the disk each makes: two for a boot, four for an import or a
/// deletion that is answered OK, and four for each key that INITIALIZATION erases.
const SCRIPTS: [(&str, u32); 4] = [
    ("keys.txt", 22),
    ("parts.txt", 18),
    ("blocks.txt", 10),
    ("sessions.txt", 10),
];

// The tables that read and write no file.
fn tables(alloc: Global) -> Result<Vec<Table>, AllocError> {
    let mut tables = Vec::new(alloc);
    tables.push(erasures(alloc)?)?;
    tables.push(boots(alloc)?)?;
    tables.push(flaky_imports(alloc)?)?;
    tables.push(fronts(alloc)?)?;
    tables.push(bad_stores(alloc)?)?;
    tables.push(sources(alloc)?)?;
    tables.push(sinks(alloc)?)?;
    tables.push(rooms(alloc)?)?;
    tables.push(limits(alloc)?)?;
    tables.push(endings(alloc)?)?;
    tables.push(forms(alloc)?)?;
    tables.push(lists(alloc)?)?;
    Ok(tables)
}

// All tables.
fn all_tables(rt: &HostRuntime) -> io::Result<Vec<Table>> {
    let mut all = tables(rt.alloc())?;
    all.push(file_stores(rt)?)?;
    for (file, calls) in SCRIPTS {
        let script = fs::read_to_string(rt, file)?;
        all.push(strikes(rt.alloc(), file, script.as_str(), calls)?)?;
    }
    Ok(all)
}

fn main(rt: HostRuntime) -> io::Result<ExitCode> {
    let tables = match all_tables(&rt) {
        Ok(tables) => tables,
        Err(fault) if fault.kind() == io::ErrorKind::OutOfMemory => return Ok(ExitCode::from(5)),
        Err(fault) => return Err(fault),
    };
    let mut status = ExitCode::SUCCESS;
    for table in &tables {
        println!(rt; "{}: compared {}", table.name(), table.count())?;
        if !table.told().is_empty() {
            println!(rt; "{}", table.told())?;
            status = ExitCode::FAILURE;
        }
    }
    Ok(status)
}
