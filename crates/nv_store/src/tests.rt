//! Replacements with a strike at each of their calls, over a disk in memory, against answers written down by hand.
ghost use Rattle.std.specs.Prelude.{◌≤◌};

use crate::{SLOTS, Store};
use disk_core::{ArmDisk, Disk, DiskError, Keep, MemDisk, PowerDisk, Strike};
use std::test::Fail;

const EMPTY: [u8; 96] = [0; 96];

const CELL: [u8; 96] = [1; 96];

/// A strike at a call of a replacement of slot 0 by [`CELL`], over a store of empty cells; what the replacement answers;
/// and the cell of slot 0 after the disk was switched on and loaded again.
type Row = (u32, Strike, Result<(), DiskError>, [u8; 96]);

/// The calls are the cell, a sync, the selector and a sync.
const ROWS: [Row; 21] = [
    // Bytes 77 are an odd selector, bytes 76 an even one.
    (1, Strike::Cut(Keep::Fill(0x77)), Err(DiskError::Off), EMPTY),
    (2, Strike::Cut(Keep::Fill(0x77)), Err(DiskError::Off), EMPTY),
    (3, Strike::Cut(Keep::Fill(0x77)), Err(DiskError::Off), CELL),
    (4, Strike::Cut(Keep::Fill(0x77)), Err(DiskError::Off), CELL),
    (1, Strike::Cut(Keep::Fill(0x76)), Err(DiskError::Off), EMPTY),
    (2, Strike::Cut(Keep::Fill(0x76)), Err(DiskError::Off), EMPTY),
    (3, Strike::Cut(Keep::Fill(0x76)), Err(DiskError::Off), EMPTY),
    (4, Strike::Cut(Keep::Fill(0x76)), Err(DiskError::Off), EMPTY),
    (1, Strike::Cut(Keep::Old), Err(DiskError::Off), EMPTY),
    (2, Strike::Cut(Keep::Old), Err(DiskError::Off), EMPTY),
    (3, Strike::Cut(Keep::Old), Err(DiskError::Off), EMPTY),
    (4, Strike::Cut(Keep::Old), Err(DiskError::Off), EMPTY),
    (1, Strike::Cut(Keep::New), Err(DiskError::Off), EMPTY),
    (2, Strike::Cut(Keep::New), Err(DiskError::Off), EMPTY),
    (3, Strike::Cut(Keep::New), Err(DiskError::Off), CELL),
    (4, Strike::Cut(Keep::New), Err(DiskError::Off), CELL),
    (1, Strike::Fail, Err(DiskError::Failed), EMPTY),
    (2, Strike::Fail, Err(DiskError::Failed), EMPTY),
    (3, Strike::Fail, Err(DiskError::Failed), EMPTY),
    (4, Strike::Fail, Err(DiskError::Failed), CELL),
    (7, Strike::Fail, Ok(()), CELL),
];

// The answer of a replacement of slot 0 that is struck, and the cell after the disk was switched on and loaded again.
fn struck(
    store: &mut Store,
    call: u32,
    strike: Strike,
) -> Result<(Result<(), DiskError>, [u8; 96]), DiskError> {
    let mut disk = MemDisk::new();
    store.load(&mut disk)?;
    disk.arm(call.max(1), strike);
    let answer = store.replace(&mut disk, 0, &CELL);
    disk.on();
    store.load(&mut disk)?;
    Ok((answer, *store.cell(0)))
}

#[test]
fn strikes(rt: HostRuntime) -> Result<(), Fail> {
    let mut store = Store::new(rt.alloc())?;
    for (number, (call, strike, answer, cell)) in ROWS.into_iter().enumerate() {
        let (answered, left) = struck(&mut store, call, strike)?;
        assert_eq!(rt; answered, answer, "row {number}");
        assert!(rt; left == cell, "row {number}");
    }
    Ok(())
}

// The answer of a replacement whose last call fails.
fn failed(store: &mut Store) -> Result<Result<(), DiskError>, DiskError> {
    let mut disk = MemDisk::new();
    store.load(&mut disk)?;
    disk.arm(4, Strike::Fail);
    Ok(store.replace(&mut disk, 0, &CELL))
}

// A store is settled after a load, until a call of it does not succeed.
#[test]
fn settled(rt: HostRuntime) -> Result<(), Fail> {
    let mut store = Store::new(rt.alloc())?;
    let mut disk = MemDisk::new();
    assert!(rt; !store.settled());
    store.load(&mut disk)?;
    assert!(rt; store.settled());
    assert!(rt; store.bytes() == [0; 12352].as_slice());
    assert_eq!(rt; failed(&mut store)?, Err(DiskError::Failed));
    assert!(rt; !store.settled());
    Ok(())
}

/// A call that no replacement comes to, since each arms anew.
const NEVER: u32 = 1000;

// A replacement by a cell of this byte, cut at one of its four calls or not at all; then the disk is switched on and loaded.
fn cut_and_loaded(
    store: &mut Store,
    disk: &mut MemDisk,
    slot: u8,
    byte: u8,
    call: u32,
) -> Result<[u8; 96], DiskError>
    requires { 1 ≤ call }
{
    let slot = slot % SLOTS;
    store.load(disk)?;
    disk.arm(call, Strike::Cut(Keep::Fill(byte)));
    let _ = store.replace(disk, slot, &[byte; 96]);
    disk.on();
    store.load(disk)?;
    Ok(*store.cell(slot))
}

// After each of 1,000 replacements, cut at a changing call or not at all, the slot has its old cell or the new one, whole.
#[test]
fn thousand_cuts(rt: HostRuntime) -> Result<(), Fail> {
    let mut store = Store::new(rt.alloc())?;
    let mut disk = MemDisk::new();
    let mut bytes = [0u8; 64];
    for number in 0..1000u32 {
        let (slot, byte) = ((number * 7 % 64) as u8, (number * 31 % 256) as u8);
        let call = if number % 5 < 4 {
            number % 5 + 1
        } else {
            NEVER
        };
        let cell = cut_and_loaded(&mut store, &mut disk, slot, byte, call)?;
        let old = bytes[slot as usize % 64];
        assert!(rt;
            cell == [byte; 96] || cell == [old; 96],
            "replacement {number}"
        );
        bytes[slot as usize % 64] = cell[0];
    }
    Ok(())
}
