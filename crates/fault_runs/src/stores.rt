//! Stores that are bad: the selected half of a slot is no record, or two slots have the same name.

ghost use Rattle.std.specs.Prelude.{◌<◌};

use crate::run::{Outcome, SOUND, run};
use crate::table::Table;
use disk_core::{DISK_BYTES, MemDisk};
use std::alloc::{AllocError, Global};

/// The size of a record, and of the half of a slot.
const RECORD_BYTES: usize = 96;

/// Where the halves of the slots begin, behind the selectors.
const HALVES: usize = 64;

/// Bytes that a selector can be.
const SELECTORS: [u8; 4] = [0, 1, 0x76, 0x77];

/// Records that are refused: a place of the record of the key `AB`, and the byte that stands there instead.
const CHANGES: [(&str, usize, u8); 8] = [
    ("first byte 2", 0, 2),
    ("name length 0", 1, 0),
    ("name length 33", 1, 33),
    ("a small letter in the name", 2, b'a'),
    ("a byte behind the name", 4, b'C'),
    ("uses 0000", 35, 0),
    ("value length 9", 36, 9),
    ("a byte behind the value", 45, 1),
];

// The record of the key `AB`: uses 0002, and eight zero bytes as its value.
fn record() -> [u8; RECORD_BYTES] {
    let mut record = [0; RECORD_BYTES];
    record[0] = 1;
    record[1] = 2;
    record[2] = b'A';
    record[3] = b'B';
    record[35] = 2;
    record[36] = 8;
    record
}

// The half that a selector selects: an even one the first.
fn selected(selector: u8) -> usize
    ensures { result < 2 }
{
    usize::from(selector % 2)
}

// Puts a record into a half of a slot.
fn put(bytes: &mut [u8; DISK_BYTES], slot: usize, half: usize, record: &[u8; RECORD_BYTES])
    requires slot { slot < 64 }
    requires half { half < 2 }
{
    let at = HALVES + (2 * slot + half) * RECORD_BYTES;
    bytes[at..at + RECORD_BYTES].copy_from_slice(record);
}

// Boots over a disk of these bytes.
fn boot(alloc: Global, bytes: [u8; DISK_BYTES]) -> Result<Outcome, AllocError> {
    run(alloc, b"boot\n", SOUND, &mut MemDisk::of(bytes))
}

/// The table of stores that are bad.
pub fn bad_stores(alloc: Global) -> Result<Table, AllocError> {
    let mut table = Table::named(alloc, "a store that is bad");
    for selector in SELECTORS {
        for (name, at, byte) in CHANGES {
            refused_record(alloc, &mut table, name, selector, (at, byte))?;
        }
        for at in 61..RECORD_BYTES {
            let name = format!(in alloc; "byte {at} is not zero")?;
            refused_record(alloc, &mut table, name.as_str(), selector, (at, 1))?;
        }
        good_record(alloc, &mut table, selector)?;
    }
    same_name(alloc, &mut table)?;
    refused_commands(alloc, &mut table)?;
    Ok(table)
}

// The selected half of slot 0 is a record with this byte changed, and the other half a good one.
fn refused_record(
    alloc: Global,
    table: &mut Table,
    name: &str,
    selector: u8,
    (at, byte): (usize, u8),
) -> Result<(), AllocError> {
    let mut bytes = [0; DISK_BYTES];
    let mut refused = record();
    if let Some(place) = refused.get_mut(at) {
        *place = byte;
    }
    bytes[0] = selector;
    put(&mut bytes, 0, 0, &record());
    put(&mut bytes, 0, selected(selector), &refused);
    let outcome = boot(alloc, bytes)?;
    let run = format!(in alloc; "{name}, selector {selector}")?;
    table.compare(
        run.as_str(),
        outcome.is_ended(0, "> boot / bad 0\n"),
        &outcome,
    )
}

// The selected half of slot 0 is a good record, and the other half none.
fn good_record(alloc: Global, table: &mut Table, selector: u8) -> Result<(), AllocError> {
    let mut bytes = [9; DISK_BYTES];
    bytes[..HALVES].fill(0);
    bytes[HALVES + 2 * RECORD_BYTES..].fill(0);
    bytes[0] = selector;
    put(&mut bytes, 0, selected(selector), &record());
    let outcome = boot(alloc, bytes)?;
    let run = format!(in alloc; "a good record, selector {selector}")?;
    let is_wanted = outcome.is_ended(0, "> boot / loaded 1 first\n");
    table.compare(run.as_str(), is_wanted, &outcome)
}

// Slots 0 and 5 have the same record: the higher of the two is bad.
fn same_name(alloc: Global, table: &mut Table) -> Result<(), AllocError> {
    let mut bytes = [0; DISK_BYTES];
    put(&mut bytes, 0, 0, &record());
    put(&mut bytes, 5, 0, &record());
    let outcome = boot(alloc, bytes)?;
    let is_wanted = outcome.is_ended(0, "> boot / bad 5\n");
    table.compare("slots 0 and 5 have the same name", is_wanted, &outcome)
}

// The first byte of slot 0 is 9: commands are refused, and so are questions about keys.
fn refused_commands(alloc: Global, table: &mut Table) -> Result<(), AllocError> {
    let mut bytes = [0; DISK_BYTES];
    bytes[HALVES] = 9;
    let script = b"boot\nopen 1\nsubmit 1 0 init\nauto\nask 1 status\nask 1 names\n";
    let printed = "> boot / bad 0\n> open 1\n< 1 told open\n> submit 1 0 init\n< 1 request 1\n\
        > begin\n> finish\n< 1 ended 1 BADSTORE 0\n> ask 1 status\n\
        < 1 told status bad keys 0 holder 0 entry no pin no pending 0\n\
        > ask 1 names\n< 1 told BADSTORE 0\n";
    let outcome = run(alloc, script, SOUND, &mut MemDisk::of(bytes))?;
    table.compare(
        "commands over a bad store",
        outcome.is_ended(0, printed),
        &outcome,
    )
}
