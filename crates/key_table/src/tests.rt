//! Keys put, replaced, removed and denied, and duplicates, against answers written down by hand.
use crate::test_keys::{CRYPT, Kept, has_rows, is_key, key, numbered_key};
use crate::{Denied, KeyNotFound, KeyTable, TableFull, copy_rows, put_row, same_rows};
use key_attributes::{KeyRow, Use};
use pad_words::{KeyName, NoMemory};
use std::alloc::Global;

const FUNCTION: u16 = 2;

const NO_DUPLICATE: u16 = 16;

const CONSTRUCT: u16 = 64;

const SECURE_CONSTRUCT: u16 = 128;

/// A name, a byte and uses.
type Named = (&'static [u8], u8, u16);

/// What is done to the table.
#[derive(Clone, Copy)]
enum Step {
    Put(&'static [u8], u8),
    Remove(&'static [u8]),
    // A put that is refused, since all slots are taken.
    PutRefused(&'static [u8], u8),
}

/// A step, and then the slots with their names and bytes.
#[derive(Clone, Copy)]
struct Row {
    step: Step,
    rows: &'static [Kept],
}

const ROWS: &[Row] = &[
    Row {
        step: Step::Put(b"A", 1),
        rows: &[(0, b"A", 1)],
    },
    Row {
        step: Step::Put(b"B", 2),
        rows: &[(0, b"A", 1), (1, b"B", 2)],
    },
    Row {
        step: Step::Put(b"C", 3),
        rows: &[(0, b"A", 1), (1, b"B", 2), (2, b"C", 3)],
    },
    // A present name keeps its slot.
    Row {
        step: Step::Put(b"B", 9),
        rows: &[(0, b"A", 1), (1, b"B", 9), (2, b"C", 3)],
    },
    Row {
        step: Step::Remove(b"B"),
        rows: &[(0, b"A", 1), (2, b"C", 3)],
    },
    Row {
        step: Step::Remove(b"A"),
        rows: &[(2, b"C", 3)],
    },
    // A present name keeps its slot though lower ones are empty.
    Row {
        step: Step::Put(b"C", 4),
        rows: &[(2, b"C", 4)],
    },
    // The lowest empty slot first.
    Row {
        step: Step::Put(b"D", 5),
        rows: &[(0, b"D", 5), (2, b"C", 4)],
    },
    Row {
        step: Step::Put(b"E", 6),
        rows: &[(0, b"D", 5), (1, b"E", 6), (2, b"C", 4)],
    },
    Row {
        step: Step::Put(b"F", 7),
        rows: &[(0, b"D", 5), (1, b"E", 6), (2, b"C", 4), (3, b"F", 7)],
    },
];

// Puts a key: whether it is kept, and found by its name.
fn puts_key(table: &mut KeyTable, name: &[u8], byte: u8, uses: u16) -> bool {
    match key(name, byte, uses) {
        Some(row) => table.put(&row) == Ok(()) && finds_key(table, &row.name, byte),
        None => false,
    }
}

// Whether the key of this name is found, and has this byte.
fn finds_key(table: &KeyTable, name: &KeyName, byte: u8) -> bool {
    match table.find(name) {
        Some(row) => is_key(row, name.text(), byte),
        None => false,
    }
}

// Puts a key: whether it is refused, and all slots are taken.
fn refuses_key(table: &mut KeyTable, name: &[u8], byte: u8) -> bool {
    match key(name, byte, CRYPT) {
        Some(row) => table.put(&row) == Err(TableFull) && table.rows().len() == 64,
        None => false,
    }
}

// Removes a name twice: whether it is gone the first time, and absent the second.
fn removes_key(table: &mut KeyTable, name: &[u8]) -> bool {
    match KeyName::read(name) {
        Some(name) => {
            table.remove(&name) == Ok(())
                && table.remove(&name) == Err(KeyNotFound)
                && table.find(&name).is_none()
        }
        None => false,
    }
}

// Does the step: whether it is answered as it is named.
fn does_step(table: &mut KeyTable, step: Step) -> bool {
    match step {
        Step::Put(name, byte) => puts_key(table, name, byte, CRYPT),
        Step::Remove(name) => removes_key(table, name),
        Step::PutRefused(name, byte) => refuses_key(table, name, byte),
    }
}

// Whether the slot has this key.
fn has_key(table: &KeyTable, slot: u8, name: &[u8], byte: u8) -> bool {
    match table.row(slot) {
        Some(row) => is_key(row, name, byte),
        None => false,
    }
}

// Whether each of these slots has its key.
fn has_keys(table: &KeyTable, kept: &[Kept]) -> bool {
    for (slot, name, byte) in kept {
        if !has_key(table, *slot, name, *byte) {
            return false;
        }
    }
    true
}

// Does the step: whether the table has the rows after it, and none in slot 4.
fn has_done(table: &mut KeyTable, row: &Row) -> bool {
    does_step(table, row.step)
        && has_rows(table.rows(), row.rows)
        && has_keys(table, row.rows)
        && table.row(4).is_none()
}

// The first row of the list that the table has otherwise.
fn wrong_row(table: &mut KeyTable) -> Option<usize> {
    for place in 0..ROWS.len() {
        if !has_done(table, &ROWS[place]) {
            return Some(place);
        }
    }
    None
}

#[test]
fn slots(rt: HostRuntime) -> Result<(), NoMemory> {
    let mut table = KeyTable::new(rt.alloc())?;
    assert_eq!(rt; wrong_row(&mut table), None);
    Ok(())
}

/// Steps at a full table, and what slot 10 has after each.
const FULL: &[(Step, Option<(&[u8], u8)>)] = &[
    (Step::PutRefused(b"K64", 64), Some((b"K10", 10))),
    (Step::Put(b"K10", 99), Some((b"K10", 99))),
    (Step::Remove(b"K10"), None),
    (Step::Put(b"K64", 64), Some((b"K64", 64))),
    (Step::PutRefused(b"K10", 10), Some((b"K64", 64))),
];

// Puts the keys of all numbers: whether each is kept.
fn fills(table: &mut KeyTable) -> bool {
    for number in 0..64u8 {
        let kept = match numbered_key(number) {
            Some(row) => table.put(&row) == Ok(()),
            None => false,
        };
        if !kept {
            return false;
        }
    }
    true
}

// Whether slot 10 has this key, or none.
fn has_tenth(table: &KeyTable, wanted: Option<(&[u8], u8)>) -> bool {
    match wanted {
        Some((name, byte)) => has_key(table, 10, name, byte),
        None => table.row(10).is_none(),
    }
}

// The first step at a full table that it does otherwise; the number of steps where it cannot be filled.
fn wrong_step(table: &mut KeyTable) -> Option<usize> {
    if !fills(table) {
        return Some(FULL.len());
    }
    for place in 0..FULL.len() {
        if !does_step(table, FULL[place].0) || !has_tenth(table, FULL[place].1) {
            return Some(place);
        }
    }
    None
}

#[test]
fn a_full_table(rt: HostRuntime) -> Result<(), NoMemory> {
    let mut table = KeyTable::new(rt.alloc())?;
    assert_eq!(rt; wrong_step(&mut table), None);
    Ok(())
}

// Puts these keys: whether each is kept.
fn puts_keys(table: &mut KeyTable, keys: &[Named]) -> bool {
    for (name, byte, uses) in keys {
        if !puts_key(table, name, *byte, *uses) {
            return false;
        }
    }
    true
}

const UNFINISHED: &[Named] = &[
    (b"WHOLE", 1, CRYPT),
    (b"PART", 2, CRYPT | CONSTRUCT),
    (b"SECRET", 3, CRYPT | SECURE_CONSTRUCT),
];

/// A name, a use, and the first byte of the value or why it is denied.
type Permit = (&'static [u8], Use, Result<u8, Denied>);

const PERMITS: &[Permit] = &[
    (b"WHOLE", Use::Crypt, Ok(1)),
    (b"WHOLE", Use::PinRemote, Err(Denied::UseViolation)),
    (b"PART", Use::Crypt, Err(Denied::KeyNoValue)),
    (b"PART", Use::PinRemote, Err(Denied::KeyNoValue)),
    (b"SECRET", Use::PinRemote, Err(Denied::KeyNoValue)),
    (b"NONE", Use::Crypt, Err(Denied::KeyNotFound)),
    (b"NONE", Use::PinRemote, Err(Denied::KeyNotFound)),
];

// Whether the answer for the name and the use is this one.
fn is_answer(table: &KeyTable, name: &KeyName, wanted: Use, answer: &Result<u8, Denied>) -> bool {
    match (table.permit(name, wanted), answer) {
        (Ok(value), Ok(byte)) => value.bytes() == [*byte; 8].as_slice(),
        (Err(denied), Err(wanted)) => denied == *wanted,
        _ => false,
    }
}

// Whether the key is permitted, or denied, as it is told.
fn permits_so(table: &KeyTable, permit: &Permit) -> bool {
    match KeyName::read(permit.0) {
        Some(name) => is_answer(table, &name, permit.1, &permit.2),
        None => false,
    }
}

// The first answer that is otherwise; the number of answers where the keys cannot be put.
fn wrong_permit(table: &mut KeyTable) -> Option<usize> {
    if !puts_keys(table, UNFINISHED) {
        return Some(PERMITS.len());
    }
    for place in 0..PERMITS.len() {
        if !permits_so(table, &PERMITS[place]) {
            return Some(place);
        }
    }
    None
}

#[test]
fn permits(rt: HostRuntime) -> Result<(), NoMemory> {
    let mut table = KeyTable::new(rt.alloc())?;
    assert_eq!(rt; wrong_permit(&mut table), None);
    Ok(())
}

/// The keys of the table.
const KEPT: &[Named] = &[
    (b"A", 1, CRYPT),
    (b"B", 2, CRYPT | NO_DUPLICATE),
    (b"C", 2, FUNCTION | NO_DUPLICATE),
    (b"D", 3, CRYPT | NO_DUPLICATE | CONSTRUCT),
    (b"E", 4, CRYPT),
    (b"F", 4, CRYPT | NO_DUPLICATE),
];

/// A new key: its name, byte and uses, and the name of the key that it doubles.
type Doubled = (&'static [u8], u8, u16, Option<&'static [u8]>);

const DOUBLED: &[Doubled] = &[
    (b"NEW", 1, CRYPT, None),
    // forbidden by the new key
    (b"NEW", 1, CRYPT | NO_DUPLICATE, Some(b"A")),
    // forbidden by the old key, and the lower of two
    (b"NEW", 2, CRYPT, Some(b"B")),
    // its own name is no duplicate
    (b"A", 1, CRYPT | NO_DUPLICATE, None),
    (b"B", 2, CRYPT, Some(b"C")),
    // the new key is under construction, or the old one
    (b"NEW", 2, CRYPT | NO_DUPLICATE | CONSTRUCT, None),
    (b"NEW", 3, CRYPT | NO_DUPLICATE, None),
    // the lower key does not forbid it, the higher one does
    (b"NEW", 4, CRYPT, Some(b"F")),
    (b"NEW", 4, CRYPT | NO_DUPLICATE, Some(b"E")),
    (b"NEW", 5, CRYPT | NO_DUPLICATE, None),
];

// Whether the key doubles the one that it is to double, or none.
fn doubles_so(table: &KeyTable, doubled: &Doubled) -> bool {
    let (name, byte, uses, answer) = doubled;
    let Some(row) = key(name, *byte, *uses) else {
        return false;
    };
    match (table.duplicate(&row), answer) {
        (Some(name), Some(wanted)) => name.text() == *wanted,
        (None, None) => true,
        _ => false,
    }
}

// The first new key that doubles another one; the number of new keys where the keys cannot be put.
fn wrong_duplicate(table: &mut KeyTable) -> Option<usize> {
    if !puts_keys(table, KEPT) {
        return Some(DOUBLED.len());
    }
    for place in 0..DOUBLED.len() {
        if !doubles_so(table, &DOUBLED[place]) {
            return Some(place);
        }
    }
    None
}

#[test]
fn duplicates(rt: HostRuntime) -> Result<(), NoMemory> {
    let mut table = KeyTable::new(rt.alloc())?;
    assert_eq!(rt; wrong_duplicate(&mut table), None);
    Ok(())
}

/// Of rows in the slots 1, 2 and 4: what a slot gets, none where it is emptied, and then the slots with their bytes.
type Change = (u8, Option<u8>, &'static [(u8, u8)]);

const LISTS: &[Change] = &[
    // before, between and behind
    (0, Some(9), &[(0, 9), (1, 1), (2, 2), (4, 4)]),
    (3, Some(9), &[(1, 1), (2, 2), (3, 9), (4, 4)]),
    (63, Some(9), &[(1, 1), (2, 2), (4, 4), (63, 9)]),
    // in place of another row, and the same row again
    (2, Some(9), &[(1, 1), (2, 9), (4, 4)]),
    (2, Some(2), &[(1, 1), (2, 2), (4, 4)]),
    // a slot with a row, and an empty one
    (1, None, &[(2, 2), (4, 4)]),
    (4, None, &[(1, 1), (2, 2)]),
    (3, None, &[(1, 1), (2, 2), (4, 4)]),
];

// Puts rows into the slots 1, 2 and 4: whether each step is done.
fn fills_three(table: &mut KeyTable) -> bool {
    puts_keys(table, BYTES) && removes_key(table, b"A") && removes_key(table, b"D")
}

const BYTES: &[Named] = &[
    (b"A", 0, CRYPT),
    (b"B", 1, CRYPT),
    (b"C", 2, CRYPT),
    (b"D", 3, CRYPT),
    (b"E", 4, CRYPT),
];

/// A row whose name and value are told by a byte.
fn byte_row(byte: u8) -> Option<KeyRow> {
    key(&[b'A' + byte % 16], byte, CRYPT)
}

// The rows of a table, where this slot has the row of this byte, or none.
fn changed_rows(
    alloc: Global,
    table: &KeyTable,
    slot: u8,
    byte: Option<u8>,
) -> Option<Vec<(u8, KeyRow)>> {
    let mut rows = Vec::with_capacity(alloc, table.rows().len() + 1).ok()?;
    copy_rows(table.rows(), &mut rows);
    match byte {
        Some(byte) => put_row(&mut rows, slot, Some(&byte_row(byte)?)),
        None => put_row(&mut rows, slot, None),
    }
    Some(rows)
}

// The rows of these slots and bytes.
fn rows_of(alloc: Global, wanted: &[(u8, u8)]) -> Option<Vec<(u8, KeyRow)>> {
    let mut rows = Vec::new(alloc);
    for (slot, byte) in wanted {
        rows.push((*slot, byte_row(*byte)?)).ok()?;
    }
    Some(rows)
}

// Whether the changed rows are those that are wanted, and those of the table just where they are to be.
fn changes_so(alloc: Global, table: &KeyTable, change: &Change, is_unchanged: bool) -> bool {
    let rows = changed_rows(alloc, table, change.0, change.1);
    match (rows, rows_of(alloc, change.2)) {
        (Some(rows), Some(answer)) => {
            same_rows(rows.as_slice(), answer.as_slice())
                && same_rows(rows.as_slice(), table.rows()) == is_unchanged
        }
        _ => false,
    }
}

// The first change that is otherwise; the number of changes where the rows cannot be put.
fn wrong_change(alloc: Global, table: &mut KeyTable) -> Option<usize> {
    if !fills_three(table) {
        return Some(LISTS.len());
    }
    for place in 0..LISTS.len() {
        if !changes_so(alloc, table, &LISTS[place], place == 4 || place == 7) {
            return Some(place);
        }
    }
    None
}

#[test]
fn row_lists(rt: HostRuntime) -> Result<(), NoMemory> {
    let mut table = KeyTable::new(rt.alloc())?;
    assert_eq!(rt; wrong_change(rt.alloc(), &mut table), None);
    Ok(())
}
