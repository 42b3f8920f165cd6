//! Rows put, removed and erased with a strike at each device call, and loaded again; and stores with bad slots.
use crate::test_keys::{CRYPT, Kept, has_rows, key, numbered_key};
use crate::{Erased, LoadFault, PutFault, RemoveFault, StoredKeys};
use disk_core::{ArmDisk, DISK_BYTES, Disk, DiskError, Keep, MemDisk, PowerDisk, Strike};
use key_attributes::KeyRow;
use pad_words::{KeyName, NoMemory};

/// What each table begins with. Each slot was written once, so that the next selector is even.
const BEFORE: &[Kept] = &[(0, b"A", 1), (1, b"B", 2), (2, b"C", 3)];

/// A strike at a call of one replacement: the call, the strike and the fault; and whether the slot has its new cell
/// after the disk was switched on and loaded again, where the new selector is even, and where it is odd.
type Struck = (u32, Strike, DiskError, bool, bool);

const STRIKES: &[Struck] = &[
    // Bytes 77 are an odd selector, bytes 76 an even one.
    (
        1,
        Strike::Cut(Keep::Fill(0x77)),
        DiskError::Off,
        false,
        false,
    ),
    (
        2,
        Strike::Cut(Keep::Fill(0x77)),
        DiskError::Off,
        false,
        false,
    ),
    (
        3,
        Strike::Cut(Keep::Fill(0x77)),
        DiskError::Off,
        false,
        true,
    ),
    (
        4,
        Strike::Cut(Keep::Fill(0x77)),
        DiskError::Off,
        false,
        true,
    ),
    (
        1,
        Strike::Cut(Keep::Fill(0x76)),
        DiskError::Off,
        false,
        false,
    ),
    (
        2,
        Strike::Cut(Keep::Fill(0x76)),
        DiskError::Off,
        false,
        false,
    ),
    (
        3,
        Strike::Cut(Keep::Fill(0x76)),
        DiskError::Off,
        true,
        false,
    ),
    (
        4,
        Strike::Cut(Keep::Fill(0x76)),
        DiskError::Off,
        true,
        false,
    ),
    (1, Strike::Cut(Keep::Old), DiskError::Off, false, false),
    (2, Strike::Cut(Keep::Old), DiskError::Off, false, false),
    (3, Strike::Cut(Keep::Old), DiskError::Off, false, false),
    (4, Strike::Cut(Keep::Old), DiskError::Off, false, false),
    (1, Strike::Cut(Keep::New), DiskError::Off, false, false),
    (2, Strike::Cut(Keep::New), DiskError::Off, false, false),
    (3, Strike::Cut(Keep::New), DiskError::Off, true, true),
    (4, Strike::Cut(Keep::New), DiskError::Off, true, true),
    (1, Strike::Fail, DiskError::Failed, false, false),
    (2, Strike::Fail, DiskError::Failed, false, false),
    (3, Strike::Fail, DiskError::Failed, false, false),
    (4, Strike::Fail, DiskError::Failed, true, true),
];

/// What is done to the rows of before.
#[derive(Clone, Copy)]
enum Change {
    Put(&'static [u8], u8),
    Remove(&'static [u8]),
    // All rows are erased, and the strike comes once so many are.
    Erase(u8),
}

/// A change, whether the new selector of the struck slot is even, the rows after the strike, and the rows where that slot
/// has its new cell.
type Changed = (Change, bool, &'static [Kept], &'static [Kept]);

const CHANGES: &[Changed] = &[
    (
        Change::Put(b"B", 9),
        true,
        BEFORE,
        &[(0, b"A", 1), (1, b"B", 9), (2, b"C", 3)],
    ),
    (
        Change::Put(b"D", 4),
        false,
        BEFORE,
        &[(0, b"A", 1), (1, b"B", 2), (2, b"C", 3), (3, b"D", 4)],
    ),
    (
        Change::Remove(b"B"),
        true,
        BEFORE,
        &[(0, b"A", 1), (2, b"C", 3)],
    ),
    (
        Change::Erase(0),
        true,
        BEFORE,
        &[(1, b"B", 2), (2, b"C", 3)],
    ),
    (
        Change::Erase(1),
        true,
        &[(1, b"B", 2), (2, b"C", 3)],
        &[(2, b"C", 3)],
    ),
    (Change::Erase(2), true, &[(2, b"C", 3)], &[]),
];

// Loads, and puts a row: whether this is the answer.
fn answers_put(
    keys: &mut StoredKeys,
    disk: &mut MemDisk,
    row: &KeyRow,
    answer: Result<(), PutFault>,
) -> Result<bool, LoadFault> {
    keys.load(disk)?;
    Ok(keys.put(disk, row) == answer)
}

// Loads, and puts a row with a strike: whether it has the fault.
fn fails_put(
    keys: &mut StoredKeys,
    disk: &mut MemDisk,
    row: &KeyRow,
    struck: &Struck,
) -> Result<bool, LoadFault> {
    keys.load(disk)?;
    disk.arm(struck.0.max(1), struck.1);
    Ok(keys.put(disk, row) == Err(PutFault::Disk(struck.2)))
}

// Loads, and removes a name: whether this is the answer.
fn answers_removal(
    keys: &mut StoredKeys,
    disk: &mut MemDisk,
    name: &KeyName,
    answer: Result<(), RemoveFault>,
) -> Result<bool, LoadFault> {
    keys.load(disk)?;
    Ok(keys.remove(disk, name) == answer)
}

// Loads, and removes a name with a strike: whether it has the fault.
fn fails_removal(
    keys: &mut StoredKeys,
    disk: &mut MemDisk,
    name: &KeyName,
    struck: &Struck,
) -> Result<bool, LoadFault> {
    keys.load(disk)?;
    disk.arm(struck.0.max(1), struck.1);
    Ok(keys.remove(disk, name) == Err(RemoveFault::Disk(struck.2)))
}

// Loads, and erases all rows with a strike: whether this is the answer.
fn answers_erasure(
    keys: &mut StoredKeys,
    disk: &mut MemDisk,
    call: u32,
    strike: Strike,
    answer: Erased,
) -> Result<bool, LoadFault> {
    keys.load(disk)?;
    disk.arm(call.max(1), strike);
    Ok(keys.erase_all(disk) == answer)
}

// Puts a key: whether this is the answer.
fn puts_key(
    keys: &mut StoredKeys,
    disk: &mut MemDisk,
    row: Option<KeyRow>,
    answer: Result<(), PutFault>,
) -> bool {
    match row {
        Some(row) => answers_put(keys, disk, &row, answer) == Ok(true),
        None => false,
    }
}

// Puts the rows of before on a new disk: whether each is kept.
fn fills(keys: &mut StoredKeys, disk: &mut MemDisk) -> bool {
    for (_, name, byte) in BEFORE {
        if !puts_key(keys, disk, key(name, *byte, CRYPT), Ok(())) {
            return false;
        }
    }
    true
}

// Erases all rows with a strike once so many are erased: whether it has the fault.
fn fails_erasure(
    keys: &mut StoredKeys,
    disk: &mut MemDisk,
    count: u8,
    struck: &Struck,
) -> Result<bool, LoadFault> {
    let call = 4 * u32::from(count) + struck.0 % 5;
    let fault = Some(struck.2);
    answers_erasure(keys, disk, call, struck.1, Erased { count, fault })
}

// Makes the change with a strike: whether it has the fault.
fn fails_change(
    keys: &mut StoredKeys,
    disk: &mut MemDisk,
    change: Change,
    struck: &Struck,
) -> bool {
    let fails = match change {
        Change::Put(name, byte) => match key(name, byte, CRYPT) {
            Some(row) => fails_put(keys, disk, &row, struck),
            None => Ok(false),
        },
        Change::Remove(name) => match KeyName::read(name) {
            Some(name) => fails_removal(keys, disk, &name, struck),
            None => Ok(false),
        },
        Change::Erase(count) => fails_erasure(keys, disk, count, struck),
    };
    fails == Ok(true)
}

// Switches on and loads again: whether these rows stood there before it, with no store, and those after it.
fn recovers(keys: &mut StoredKeys, disk: &mut MemDisk, now: &[Kept], then: &[Kept]) -> bool {
    let has_now = !keys.settled() && has_rows(keys.rows(), now);
    disk.on();
    keys.load(disk) == Ok(()) && has_now && keys.settled() && has_rows(keys.rows(), then)
}

// Whether the change with a strike has the fault, and leaves what it is to leave.
fn is_struck(keys: &mut StoredKeys, changed: &Changed, struck: &Struck) -> bool {
    let (change, is_even, now, new) = changed;
    let is_new = if *is_even { struck.3 } else { struck.4 };
    let then = if is_new { *new } else { *now };
    let mut disk = MemDisk::new();
    fills(keys, &mut disk)
        && fails_change(keys, &mut disk, *change, struck)
        && recovers(keys, &mut disk, now, then)
}

// The first strike at which the change is otherwise.
fn wrong_strike(keys: &mut StoredKeys, changed: &Changed) -> Option<usize> {
    for at in 0..STRIKES.len() {
        if !is_struck(keys, changed, &STRIKES[at]) {
            return Some(at);
        }
    }
    None
}

// Loads: whether the rows before it and after it are these.
fn keeps_rows(keys: &mut StoredKeys, disk: &mut MemDisk, rows: &[Kept]) -> bool {
    let has_now = has_rows(keys.rows(), rows);
    has_now && keys.load(disk) == Ok(()) && has_rows(keys.rows(), rows)
}

// Puts a row: whether it is kept, and is there when it is loaded again.
fn puts_whole(
    keys: &mut StoredKeys,
    disk: &mut MemDisk,
    row: Option<KeyRow>,
    rows: &[Kept],
) -> bool {
    puts_key(keys, disk, row, Ok(())) && keeps_rows(keys, disk, rows)
}

// Removes a name twice: whether it is gone the first time, and absent the second.
fn removes_whole(keys: &mut StoredKeys, disk: &mut MemDisk, name: &KeyName, rows: &[Kept]) -> bool {
    answers_removal(keys, disk, name, Ok(())) == Ok(true)
        && has_rows(keys.rows(), rows)
        && answers_removal(keys, disk, name, Err(RemoveFault::KeyNotFound)) == Ok(true)
        && has_rows(keys.rows(), rows)
}

// Erases all rows with a strike behind the last call: whether all are erased.
fn erases_whole(keys: &mut StoredKeys, disk: &mut MemDisk) -> bool {
    let (count, fault) = (3, None);
    answers_erasure(keys, disk, 13, Strike::Fail, Erased { count, fault }) == Ok(true)
        && has_rows(keys.rows(), &[])
}

// Makes the change with no strike: whether it is whole.
fn is_whole(keys: &mut StoredKeys, changed: &Changed) -> bool {
    let mut disk = MemDisk::new();
    if !fills(keys, &mut disk) {
        return false;
    }
    match changed.0 {
        Change::Put(name, byte) => {
            puts_whole(keys, &mut disk, key(name, byte, CRYPT), changed.3)
        }
        Change::Remove(name) => match KeyName::read(name) {
            Some(name) => removes_whole(keys, &mut disk, &name, changed.3),
            None => false,
        },
        Change::Erase(_) => erases_whole(keys, &mut disk),
    }
}

// The first change, and the strike at it, that is otherwise; the number of strikes where it is not whole with no strike.
fn wrong_change(keys: &mut StoredKeys) -> Option<(usize, usize)> {
    for place in 0..CHANGES.len() {
        if let Some(at) = wrong_strike(keys, &CHANGES[place]) {
            return Some((place, at));
        }
        if !is_whole(keys, &CHANGES[place]) {
            return Some((place, STRIKES.len()));
        }
    }
    None
}

#[test]
fn changes(rt: HostRuntime) -> Result<(), NoMemory> {
    let mut keys = StoredKeys::new(rt.alloc())?;
    assert_eq!(rt; wrong_change(&mut keys), None);
    Ok(())
}

// The first number whose key is not kept; 64 where the next one is not refused, or not all rows stand.
fn wrong_number(keys: &mut StoredKeys) -> Option<u8> {
    let mut disk = MemDisk::new();
    for number in 0..64u8 {
        if !puts_key(keys, &mut disk, numbered_key(number), Ok(())) {
            return Some(number);
        }
    }
    let is_refused = puts_key(keys, &mut disk, numbered_key(64), Err(PutFault::TableFull));
    if is_refused && keys.settled() && keys.rows().len() == 64 {
        None
    } else {
        Some(64)
    }
}

#[test]
fn a_full_store(rt: HostRuntime) -> Result<(), NoMemory> {
    let mut keys = StoredKeys::new(rt.alloc())?;
    assert_eq!(rt; wrong_number(&mut keys), None);
    Ok(())
}

/// A place on the disk of the rows of before, a byte written there, and the lowest bad slot. The cells of these rows are
/// in half 1.
const BAD: &[(u32, u8, u8)] = &[
    // slot 1 is neither empty nor a key
    (64 + 3 * 96, 2, 1),
    // a byte behind its name
    (64 + 3 * 96 + 9, 1, 1),
    // slot 2 has the name of slot 0: the higher one is bad
    (64 + 5 * 96 + 2, b'A', 2),
    // an empty slot with a byte
    (64 + 126 * 96 + 95, 1, 63),
];

// The rows of before with a byte written on their disk, loaded. None where a call before the load has a fault.
fn written_load(keys: &mut StoredKeys, place: u32, byte: u8) -> Option<Result<(), LoadFault>> {
    let mut disk = MemDisk::new();
    if !fills(keys, &mut disk) {
        return None;
    }
    match disk.write_at(place % DISK_BYTES as u32, &[byte]) {
        Ok(()) => Some(keys.load(&mut disk)),
        Err(_) => None,
    }
}

// Whether the byte makes the slot bad, and the rows stay those of before; and in a half that does not count it is nothing.
fn is_bad(keys: &mut StoredKeys, place: u32, byte: u8, slot: u8) -> bool {
    written_load(keys, place, byte) == Some(Err(LoadFault::BadStore(slot)))
        && !keys.settled()
        && has_rows(keys.rows(), BEFORE)
        && written_load(keys, 64 + 2 * 96, byte) == Some(Ok(()))
        && has_rows(keys.rows(), BEFORE)
}

// The first place whose byte is answered otherwise.
fn wrong_place(keys: &mut StoredKeys) -> Option<u32> {
    for (place, byte, slot) in BAD {
        if !is_bad(keys, *place, *byte, *slot) {
            return Some(*place);
        }
    }
    None
}

#[test]
fn bad_stores(rt: HostRuntime) -> Result<(), NoMemory> {
    let mut keys = StoredKeys::new(rt.alloc())?;
    assert_eq!(rt; wrong_place(&mut keys), None);
    Ok(())
}
