//! What is so of the rows of a key table.
ghost use Rattle.std.specs.Prelude.{◌≡◌, ◌≢◌, ◌<◌, IfSome, IsTrue, List, None, Option, Some, is_none, is_some, length, ℕ};
ghost use Rattle.key_attributes.specs.declared.KeyRow.{KeyRow};
ghost use Rattle.key_record.specs.Records.{IsRow, spelled};
ghost use Rattle.key_table.specs.KeyRows.{KeyRows, find_key, find_row, put_row, slot_for, slot_of, with_row};
ghost use Rattle.key_table.specs.StoredRows.{HasCells, ShowsOldOrNew, bad_slot, put_bytes, rows_of};
ghost use Rattle.key_table.specs.Tables.{is_table};
ghost use Rattle.nv_store.specs.Cells.{IsTorn};

use disk_core::DISK_BYTES;
use disk_core::laws::splices;
use key_record::laws::{record_has_96_bytes, records_are_read_back};
use nv_store::laws::slots_stay_whole;

/// A table stays one as a row is put into the slot of its name, and as a slot is emptied.
pub fn changes_keep_a_table()
    ensures put { (rows : KeyRows) (row : KeyRow) →
        IsTrue (is_table rows) →
        IfSome (slot_for row.name rows) (λ slot. IsTrue (is_table (with_row slot row rows))) }
    ensures emptied { (rows : KeyRows) (slot : ℕ) →
        IsTrue (is_table rows) → IsTrue (is_table (put_row slot None rows)) }
{}

/// A row that was put is found by its name, and every other name finds what it found before.
pub fn put_row_is_found()
    ensures found { (rows : KeyRows) (row : KeyRow) →
        IsTrue (is_table rows) →
        IfSome (slot_for row.name rows) (λ slot. find_row row.name (with_row slot row rows) ≡ Some row) }
    ensures others { (rows : KeyRows) (row : KeyRow) (name : List ℕ) →
        IsTrue (is_table rows) → name ≢ row.name →
        IfSome (slot_for row.name rows) (λ slot. find_row name (with_row slot row rows) ≡ find_row name rows) }
{}

/// A name whose slot was emptied is found no more, and every other name finds what it found before.
pub fn removed_name_is_gone()
    ensures gone { (rows : KeyRows) (name : List ℕ) →
        IsTrue (is_table rows) →
        IfSome (find_key name rows) (λ found. find_row name (put_row found.0 None rows) ≡ None) }
    ensures others { (rows : KeyRows) (name other : List ℕ) →
        IsTrue (is_table rows) → other ≢ name →
        IfSome (find_key name rows) (λ found. find_row other (put_row found.0 None rows) ≡ find_row other rows) }
{}

/// A name that is present stands in one of 64 slots.
pub fn names_stand_in_slots()
    ensures { (rows : KeyRows) (name : List ℕ) (slot : ℕ) →
        IsTrue (is_table rows) → slot_of name rows ≡ Some slot → slot < 64 }
{}

/// Bytes show a table, or have a bad slot. A table is shown exactly where each cell is the record of the row in its slot.
pub fn bytes_show_rows()
    ensures table { (bytes : List ℕ) (rows : KeyRows) → rows_of bytes ≡ Some rows → IsTrue (is_table rows) }
    ensures bad { (bytes : List ℕ) → is_some (rows_of bytes) ≡ is_none (bad_slot bytes) }
    ensures cells { (bytes : List ℕ) (rows : KeyRows) → rows_of bytes ≡ Some rows → HasCells bytes rows }
    ensures rows { (bytes : List ℕ) (rows : KeyRows) →
        IsTrue (is_table rows) → HasCells bytes rows → rows_of bytes ≡ Some rows }
{}

/// Bytes with another row in a slot show the rows with it; torn bytes show the old rows or the new ones.
pub fn changed_bytes_show_changed_rows()
    ensures size { (bytes : List ℕ) (slot : ℕ) (row : Option KeyRow) →
        length bytes ≡ DISK_BYTES → slot < 64 → IsRow row → length (put_bytes bytes slot row) ≡ DISK_BYTES }
    ensures whole { (bytes : List ℕ) (slot : ℕ) (row : Option KeyRow) (rows : KeyRows) →
        length bytes ≡ DISK_BYTES → slot < 64 → IsRow row → rows_of bytes ≡ Some rows →
        IsTrue (is_table (put_row slot row rows)) →
        rows_of (put_bytes bytes slot row) ≡ Some (put_row slot row rows) }
    ensures torn { (bytes torn : List ℕ) (slot : ℕ) (row : Option KeyRow) (rows : KeyRows) →
        length bytes ≡ DISK_BYTES → slot < 64 → IsRow row → rows_of bytes ≡ Some rows →
        IsTrue (is_table (put_row slot row rows)) → IsTorn bytes slot (spelled row) torn →
        ShowsOldOrNew (record { slot = slot; row = row }) rows torn }
{
    record_has_96_bytes();
    records_are_read_back();
    slots_stay_whole();
    splices();
}
