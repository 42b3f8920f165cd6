//! The rows of a store, slot by slot.
ghost use Rattle.std.specs.Prelude.{◌≡◌, ◌<◌, ◌≤◌, ◌+◌, ◌-◌, ◌++◌, ◌∷◌, [], IfNone, IfOk, IfSome, IsSome, None, OnErr, Some, bytes_eq, length, vec_capacity};
ghost use Rattle.std.specs.Bool.{OnFalse, OnTrue};
ghost use Rattle.std.specs.List.{list_any};
ghost use Rattle.key_record.specs.Records.{record_of};
ghost use Rattle.key_table.specs.StoredRows.{BadAt, bad_slot, rows_of, scan};
ghost use Rattle.nv_store.specs.Cells.{cell_of};

use key_attributes::KeyRow;
use key_record::{OutsideGrammar, read_record};
use nv_store::{SLOTS, Store};
use pad_words::KeyName;

/// Reads the rows of all slots, or finds the lowest bad slot.
pub fn read_rows(store: &Store, rows: &mut Vec<(u8, KeyRow)>) -> Option<u8>
    requires settled { IsSome store.now.bytes }
    requires empty { rows.old.items ≡ [] }
    requires room { 64 ≤ vec_capacity rows.old }
    ensures shows { IfSome store.now.bytes (λ bytes. IfNone result (rows_of bytes ≡ Some rows.new.items)) }
    ensures bad { IfSome store.now.bytes (λ bytes. IfSome result (λ slot. bad_slot bytes ≡ Some slot)) }
    ensures room { 64 ≤ vec_capacity rows.new }
{
    for slot in 0..SLOTS {
        if !take_slot(store, slot, rows) {
            return Some(slot);
        }
    }
    None
}

// Puts the row of a slot behind the others. False where the slot is bad.
fn take_slot(store: &Store, slot: u8, rows: &mut Vec<(u8, KeyRow)>) -> bool
    requires settled { IsSome store.now.bytes }
    requires below { slot < SLOTS }
    requires few { length rows.old.items ≤ slot }
    requires room { 64 ≤ vec_capacity rows.old }
    ensures taken { OnTrue result (IfSome store.now.bytes (λ bytes.
        scan bytes slot (64 - slot) rows.old.items ≡ scan bytes (slot + 1) (64 - (slot + 1)) rows.new.items)) }
    ensures bad { OnFalse result (IfSome store.now.bytes (λ bytes.
        scan bytes slot (64 - slot) rows.old.items ≡ BadAt slot)) }
    ensures few { length rows.new.items ≤ slot + 1 }
    ensures room { 64 ≤ vec_capacity rows.new }
{
    match record_at(store, slot) {
        Err(_) => false,
        Ok(None) => true,
        Ok(Some(row)) => {
            if has_name(rows.as_slice(), &row.name) {
                return false;
            }
            enter(rows, slot, row);
            true
        }
    }
}

// The row of a slot, none where it is empty.
fn record_at(store: &Store, slot: u8) -> Result<Option<KeyRow>, OutsideGrammar>
    requires settled { IsSome store.now.bytes }
    requires below { slot < SLOTS }
    ensures ok { IfOk result (λ row. IfSome store.now.bytes (λ bytes. record_of (cell_of bytes slot) ≡ Some row)) }
    ensures err { OnErr result (IfSome store.now.bytes (λ bytes. record_of (cell_of bytes slot) ≡ None)) }
{
    read_record(store.cell(slot))
}

// Whether a row has the name.
fn has_name(rows: &[(u8, KeyRow)], name: &KeyName) -> bool
    ensures { result ≡ list_any (λ row. bytes_eq row.1.name name.now) rows.now }
{
    rows.iter().any(|row| row.1.name.text() == name.text())
}

// Puts a row behind the others.
fn enter(rows: &mut Vec<(u8, KeyRow)>, slot: u8, row: KeyRow)
    requires room { length rows.old.items + 1 ≤ vec_capacity rows.old }
    ensures items { rows.new.items ≡ rows.old.items ++ (slot, row) ∷ [] }
    ensures room { vec_capacity rows.old ≤ vec_capacity rows.new }
{
    match rows.push((slot, row)) {
        Ok(()) => {}
        Err(_) => unreachable!(),
    }
}
