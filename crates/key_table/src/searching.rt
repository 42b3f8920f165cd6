//! Where a row stands or is to stand in the rising slots, and where the first gap is.
ghost use Rattle.std.specs.Prelude.{◌≡◌, ◌==◌, ◌≤◌, length};
ghost use Rattle.std.specs.List.{position};
ghost use Rattle.key_table.specs.Duplicates.{is_duplicate};
ghost use Rattle.key_table.specs.Places.{first_gap, place_in_order};

use key_attributes::KeyRow;

/// The place of the row in this slot, if one stands there.
pub fn place_of_slot(rows: &[(u8, KeyRow)], slot: u8) -> Option<usize>
    ensures { result ≡ position (λ row. row.0 == slot) rows.now }
{
    rows.iter().position(|row| row.0 == slot)
}

/// The place of the first row of which this row is a forbidden duplicate, if there is one.
pub fn place_of_duplicate(rows: &[(u8, KeyRow)], new: &KeyRow) -> Option<usize>
    ensures { result ≡ position (λ row. is_duplicate new.now row.1) rows.now }
{
    rows.iter().position(|row| is_duplicate(new, &row.1))
}

/// The first place whose row does not stand in the slot of that number. Where each does, the number of rows.
pub fn place_of_gap(rows: &[(u8, KeyRow)]) -> usize
    ensures gap { result ≡ first_gap 0 rows.now }
    ensures within { result ≤ length rows.now }
{
    let mut place = 0;
    while place < rows.len() && usize::from(rows[place].0) == place {
        place += 1;
    }
    place
}

/// The place of a slot among the rising ones: the number of first rows that stand below it.
pub fn place_in_order(rows: &[(u8, KeyRow)], slot: u8) -> usize
    ensures place { result ≡ place_in_order slot rows.now }
    ensures within { result ≤ length rows.now }
{
    let mut place = 0;
    while place < rows.len() && rows[place].0 < slot {
        place += 1;
    }
    place
}

// whether the new row is a duplicate that this row or the new one forbids
fn is_duplicate(new: &KeyRow, row: &KeyRow) -> bool
    ensures { result ≡ is_duplicate new.now row.now }
{
    !new.uses.under_construction()
        && !row.uses.under_construction()
        && row.name.text() != new.name.text()
        && row.value.bytes() == new.value.bytes()
        && (row.uses.forbids_duplicates() || new.uses.forbids_duplicates())
}
