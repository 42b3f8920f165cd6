//! Lists of slots and rows that others keep: a row put into a slot, two lists compared, and one copied.
ghost use Rattle.std.specs.Prelude.{◌≡◌, ◌&&◌, ◌==◌, ◌+◌, ◌≤◌, IsTrue, None, length, vec_capacity};
ghost use Rattle.std.specs.Option.{option_copied};
ghost use Rattle.key_table.specs.KeyRows.{put_row, same_row, same_rows, with_row};
ghost use Rattle.key_table.specs.Tables.{is_table};

use crate::searching::{place_in_order, place_of_slot};
use key_attributes::KeyRow;

/// The slot gets this row, in place of its own or at its place in the rising order; with no row it is emptied.
pub fn put_row(rows: &mut Vec<(u8, KeyRow)>, slot: u8, row: Option<&KeyRow>)
    requires table { IsTrue (is_table rows.old.items) }
    requires room { length rows.old.items + 1 ≤ vec_capacity rows.old }
    ensures rows { rows.new.items ≡ put_row slot (option_copied row.entry) rows.old.items }
    ensures room { vec_capacity rows.old ≤ vec_capacity rows.new }
{
    match row {
        Some(row) => fill_slot(rows, slot, row),
        None => empty_slot(rows, slot),
    }
}

/// Whether the two lists have the same rows in the same slots.
pub fn same_rows(first: &[(u8, KeyRow)], second: &[(u8, KeyRow)]) -> bool
    ensures { result ≡ same_rows first.now second.now }
{
    if first.len() != second.len() {
        return false;
    }
    for index in 0..first.len() {
        if !same_places(&first[index], &second[index]) {
            return false;
        }
    }
    true
}

/// The list gets the rows of another one in place of its own. It takes no memory.
pub fn copy_rows(rows: &[(u8, KeyRow)], into: &mut Vec<(u8, KeyRow)>)
    requires { length rows.now ≤ vec_capacity into.old }
    ensures rows { into.new.items ≡ rows.now }
    ensures room { vec_capacity into.old ≤ vec_capacity into.new }
{
    into.clear();
    for row in rows {
        into.push_reserved((row.0, row.1.copy()));
    }
}

// The slot gets this row.
fn fill_slot(rows: &mut Vec<(u8, KeyRow)>, slot: u8, row: &KeyRow)
    requires table { IsTrue (is_table rows.old.items) }
    requires room { length rows.old.items + 1 ≤ vec_capacity rows.old }
    ensures rows { rows.new.items ≡ with_row slot row.now rows.old.items }
    ensures room { vec_capacity rows.old ≤ vec_capacity rows.new }
{
    if let Some(place) = place_of_slot(rows.as_slice(), slot) {
        rows[place].1 = row.copy();
        return;
    }
    let place = place_in_order(rows.as_slice(), slot);
    match rows.insert(place, (slot, row.copy())) {
        Ok(()) => {}
        Err(_) => unreachable!(),
    }
}

// The slot gets empty.
fn empty_slot(rows: &mut Vec<(u8, KeyRow)>, slot: u8)
    requires table { IsTrue (is_table rows.old.items) }
    ensures rows { rows.new.items ≡ put_row slot None rows.old.items }
    ensures room { vec_capacity rows.old ≤ vec_capacity rows.new }
{
    if let Some(place) = place_of_slot(rows.as_slice(), slot) {
        rows.remove(place);
    }
}

// Whether the two have the same slot and the same row.
fn same_places(first: &(u8, KeyRow), second: &(u8, KeyRow)) -> bool
    ensures { result ≡ (first.now.0 == second.now.0) && same_row first.now.1 second.now.1 }
{
    first.0 == second.0 && is_same_row(&first.1, &second.1)
}

// Whether the two rows have the same name, value and uses.
fn is_same_row(first: &KeyRow, second: &KeyRow) -> bool
    ensures { result ≡ same_row first.now second.now }
{
    first.name.text() == second.name.text()
        && first.value.bytes() == second.value.bytes()
        && first.uses.bits() == second.uses.bits()
}
