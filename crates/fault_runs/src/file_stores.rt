//! A store in a file, which is opened again: as it is, longer, and cut short.

use crate::run::{SOUND, run};
use crate::table::Table;
use file_disk::{FileDisk, HostFile, OpenFault};
use std::fs::{OpenOptions, remove_file};
use std::io;
use std::io::ErrorKind;

/// The file, which is made anew and removed.
const PATH: &str = "store";

/// A key is imported, and what is printed of that.
const IMPORT: &str = "boot\nopen 1\nsubmit 1 0 import PPK clear 0000000000000000 0002 none\nauto\n";

const IMPORTED: &str = "> boot / loaded 0 first\n> open 1\n< 1 told open\n\
    > submit 1 0 import PPK clear 0000000000000000 0002 none\n< 1 request 1\n\
    > begin\n> finish / done\n< 1 ended 1 OK key -\n";

/// What the file is given before it is opened again: its length, where that is changed, and what is printed then.
const LENGTHS: [(&str, Option<u64>, &str); 4] = [
    ("as it is", None, "> boot / loaded 1 first\n"),
    ("20000 bytes", Some(20_000), "> boot / loaded 1 first\n"),
    ("2 bytes", Some(2), "> boot / loaded 0 first\n"),
    ("no bytes", Some(0), "> boot / loaded 0 first\n"),
];

/// The table of a store in a file. A longer file is read at its front, and a shorter one is lengthened with zero bytes.
pub fn file_stores(rt: &HostRuntime) -> io::Result<Table> {
    let mut table = Table::named(rt.alloc(), "a store in a file");
    // One that an earlier run left, if it did.
    let _left = remove_file(rt, PATH);
    replay(rt, &mut table, "a new file", (IMPORT, IMPORTED))?;
    for (name, length, printed) in LENGTHS {
        if let Some(length) = length {
            let mut options = OpenOptions::new();
            options.write(true).open(rt, PATH)?.set_len(length)?;
        }
        replay(rt, &mut table, name, ("boot\n", printed))?;
    }
    remove_file(rt, PATH)?;
    Ok(table)
}

// Replays a script over the store in the file, and compares what is printed.
fn replay(
    rt: &HostRuntime,
    table: &mut Table,
    name: &str,
    (script, printed): (&str, &str),
) -> io::Result<()> {
    let mut disk = open(rt)?;
    let outcome = run(rt.alloc(), script.as_bytes(), SOUND, &mut disk)?;
    table.compare(name, outcome.is_ended(0, printed), &outcome)?;
    Ok(())
}

// The disk in the file.
fn open(rt: &HostRuntime) -> io::Result<FileDisk<HostFile>> {
    match FileDisk::on_path(rt, PATH) {
        Ok(disk) => Ok(disk),
        Err(OpenFault::NoMemory) => Err(ErrorKind::OutOfMemory.into()),
        Err(OpenFault::Failed) => Err(ErrorKind::Other.into()),
    }
}
