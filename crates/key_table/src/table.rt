//! The table of keys.
ghost use Rattle.std.specs.Prelude.{◌≡◌, ◌&&◌, ◌==◌, [], Err, IfErr, IfOk, IfSome, IsTrue, None, Ok, OnErr, OnOk, Some, is_err, is_none, length, take, vec_capacity, ◌<◌, ◌≤◌};
ghost use Rattle.std.specs.List.{insert, remove};
ghost use Rattle.std.specs.Option.{option_copied};
ghost use Rattle.key_attributes.specs.SlotRows.{SlotsRise};
ghost use Rattle.key_table.specs.Duplicates.{duplicate};
ghost use Rattle.key_table.specs.KeyRows.{find_key, find_row, put_row, row_in, slot_for, slot_of, with_row};
ghost use Rattle.key_table.specs.Permits.{permit};
ghost use Rattle.key_table.specs.SlotIndexes.{last_in};
ghost use Rattle.key_table.specs.Tables.{is_table};

use crate::searching::{place_of_duplicate, place_of_gap, place_of_slot};
use crate::slot_index::{
    END, SlotIndex, chain_of, chains_of, enter_chain, leave_chain, no_chains, number_rows,
    place_of_name,
};
use crate::{Denied, KeyNotFound, TableFull};
use key_attributes::{KeyRow, KeyValue, Use};
use pad_words::{KeyName, NoMemory};
use std::alloc::Global;
use std::marker::Model;
use std::mem::swap;

/// The number of slots.
const SLOTS: usize = 64;

/// At most 64 keys, each in a slot from 0 to 63. Contracts see the list of slots and rows: slots rise, and no name stands
/// twice.
#[derive(Drop)]
pub struct KeyTable {
    // In rising order of slots. There is room for all.
    rows: Vec<(u8, KeyRow)>,
    // It leads to each row.
    index: SlotIndex,
}

impl Model for KeyTable {
    ghost use Rattle.std.specs.Prelude.{IsTrue, vec_capacity, ◌≤◌};
    ghost use Rattle.key_table.specs.KeyRows.{KeyRows};
    ghost use Rattle.key_table.specs.SlotIndexes.{LeadsTo};
    ghost use Rattle.key_table.specs.Tables.{is_table};

    ghost Value = { KeyRows };

    ghost view = { λ t. t.rows.items };

    ghost invariant = { λ t. IsTrue (is_table t.rows.items) × (64 ≤ vec_capacity t.rows) × LeadsTo t.index 0 t.rows.items };
}

impl KeyTable {
    /// A table without keys. It takes the memory for all 64 slots; no other call takes any.
    pub fn new(alloc: Global) -> Result<KeyTable, NoMemory>
        ensures { IfOk result (λ table. table ≡ []) }
    {
        match Vec::with_capacity(alloc, SLOTS) {
            Ok(rows) => Ok(KeyTable {
                rows,
                index: no_chains(),
            }),
            Err(_) => Err(NoMemory),
        }
    }

    /// The slots and rows in order: slots rise and are below 64, and no name stands twice.
    pub fn rows(&self) -> &[(u8, KeyRow)]
        ensures rows { result.now ≡ self.now }
        ensures rising { SlotsRise result.now }
        ensures table { IsTrue (is_table self.now) }
        ensures few { length self.now ≤ 64 }
    {
        self.rows.as_slice()
    }

    /// The row of this name, if the name is present.
    pub fn find(&self, name: &KeyName) -> Option<&KeyRow>
        ensures { option_copied result ≡ find_row name.now self.now }
    {
        match place_of_name(self.rows.as_slice(), &self.index, name) {
            Some(place) => Some(&self.rows[place].1),
            None => None,
        }
    }

    /// The row in this slot. None where the slot is empty.
    pub fn row(&self, slot: u8) -> Option<&KeyRow>
        ensures { option_copied result ≡ row_in slot self.now }
    {
        match place_of_slot(self.rows.as_slice(), slot) {
            Some(place) => Some(&self.rows[place].1),
            None => None,
        }
    }

    /// The value of the key of this name for this use, or why it is denied: KEYNOTFOUND where the name is absent, else
    /// KEYNOVALUE where the key is under construction, else USEVIOLATION where it lacks the use.
    pub fn permit(&self, name: &KeyName, wanted: Use) -> Result<&KeyValue, Denied>
        ensures value { IfOk result (λ value. permit self.now name.now wanted ≡ Ok value.now) }
        ensures denied { IfErr result (λ denied. permit self.now name.now wanted ≡ Err denied) }
    {
        let Some(row) = self.find(name) else {
            return Err(Denied::KeyNotFound);
        };
        if row.uses.under_construction() {
            return Err(Denied::KeyNoValue);
        }
        if !row.uses.allows(wanted) {
            return Err(Denied::UseViolation);
        }
        Ok(&row.value)
    }

    /// The name in the lowest slot whose key makes this row a forbidden duplicate: both are complete, the names differ, the
    /// values are the same, and at least one of the two has NODUPLICATE. None where there is none.
    pub fn duplicate(&self, row: &KeyRow) -> Option<KeyName>
        ensures { result ≡ duplicate row.now self.now }
    {
        match place_of_duplicate(self.rows.as_slice(), row) {
            Some(place) => Some(self.rows[place].1.name.copy()),
            None => None,
        }
    }

    /// Keeps this row: a present name keeps its slot, a new one takes the lowest empty slot. Refused, with nothing changed,
    /// where the name is absent and all 64 slots are taken.
    pub fn put(&mut self, row: &KeyRow) -> Result<(), TableFull>
        ensures full { is_err result ≡ is_none (find_key row.now.name self.old) && (length self.old == 64) }
        ensures slotless { is_err result ≡ is_none (slot_for row.now.name self.old) }
        ensures ok { OnOk result (IfSome (slot_for row.now.name self.old) (λ slot. self.new ≡ with_row slot row.now self.old)) }
        ensures err { OnErr result (self.new ≡ self.old) }
    {
        if let Some(place) = place_of_name(self.rows.as_slice(), &self.index, &row.name) {
            self.rows[place].1 = row.copy();
            return Ok(());
        }
        let is_full = self.rows.len() == SLOTS;
        if is_full {
            return Err(TableFull);
        }
        let gap = place_of_gap(self.rows.as_slice());
        self.insert_row(gap, row.copy());
        Ok(())
    }

    /// Empties the slot of this name. Refused, with nothing changed, where the name is absent.
    pub fn remove(&mut self, name: &KeyName) -> Result<(), KeyNotFound>
        ensures absent { is_err result ≡ is_none (find_key name.now self.old) }
        ensures ok { OnOk result (IfSome (find_key name.now self.old) (λ found. self.new ≡ put_row found.0 None self.old)) }
        ensures err { OnErr result (self.new ≡ self.old) }
    {
        let Some(place) = place_of_name(self.rows.as_slice(), &self.index, name) else {
            return Err(KeyNotFound);
        };
        self.take_row(place);
        Ok(())
    }

    /// The slot of this name, if the name is present.
    pub fn slot_of(&self, name: &KeyName) -> Option<u8>
        ensures { result ≡ slot_of name.now self.now }
    {
        match place_of_name(self.rows.as_slice(), &self.index, name) {
            Some(place) => Some(self.rows[place].0),
            None => None,
        }
    }

    /// The slot of a row of this name: a present name keeps its slot, a new one takes the lowest empty slot. None where the
    /// name is absent and all 64 slots are taken.
    pub fn slot_for(&self, name: &KeyName) -> Option<u8>
        ensures { result ≡ slot_for name.now self.now }
    {
        if let Some(place) = place_of_name(self.rows.as_slice(), &self.index, name) {
            return Some(self.rows[place].0);
        }
        let is_full = self.rows.len() == SLOTS;
        if is_full {
            return None;
        }
        let gap = place_of_gap(self.rows.as_slice());
        Some(gap as u8)
    }

    /// The slot, which is that of its name, gets this row.
    pub fn keep(&mut self, slot: u8, row: &KeyRow)
        requires { slot_for row.now.name self.old ≡ Some slot }
        ensures { self.new ≡ with_row slot row.now self.old }
    {
        match self.put(row) {
            Ok(()) => {}
            Err(TableFull) => unreachable!(),
        }
    }

    /// Takes these rows, and gives its own for them.
    pub(crate) fn exchange(&mut self, rows: &mut Vec<(u8, KeyRow)>)
        requires table { IsTrue (is_table rows.old.items) }
        requires room { 64 ≤ vec_capacity rows.old }
        ensures taken { self.new ≡ rows.old.items }
        ensures given { rows.new.items ≡ self.old }
        ensures room { 64 ≤ vec_capacity rows.new }
    {
        swap(&mut self.rows, rows);
        self.index = chains_of(self.rows.as_slice());
    }

    /// Empties the slot.
    pub fn erase(&mut self, slot: u8)
        ensures { self.new ≡ put_row slot None self.old }
    {
        if let Some(place) = place_of_slot(self.rows.as_slice(), slot) {
            self.take_row(place);
        }
    }

    // Puts a row into the slot of this number, at this place.
    fn insert_row(&mut self, place: usize, row: KeyRow)
        requires table { IsTrue (is_table (insert self.old place (place, row))) }
        requires within { place ≤ length self.old }
        requires few { length self.old < 64 }
        ensures { self.new ≡ insert self.old place (place, row) }
    {
        let slot = place as u8;
        let chain = chain_of(&row.name);
        let before = self.slot_before(chain, place);
        match self.rows.insert(place, (slot, row)) {
            Ok(()) => {}
            Err(_) => unreachable!(),
        }
        enter_chain(&mut self.index, chain, before, slot);
        number_rows(self.rows.as_slice(), &mut self.index);
    }

    // Takes the row at this place out.
    fn take_row(&mut self, place: usize)
        requires { place < length self.old }
        ensures { self.new ≡ remove self.old place }
    {
        let slot = self.rows[place].0;
        let chain = chain_of(&self.rows[place].1.name);
        let before = self.slot_before(chain, place);
        leave_chain(&mut self.index, chain, before, slot);
        self.rows.remove(place);
        number_rows(self.rows.as_slice(), &mut self.index);
    }

    // The last slot of the chain among the rows before this place.
    fn slot_before(&self, chain: usize, place: usize) -> Option<u8>
        requires { chain < 32 }
        ensures last { result ≡ last_in chain (take place self.now) }
        ensures below { IfSome result (λ last. last < 64) }
    {
        let mut before = None;
        let mut slot = self.index.first[chain];
        while slot < END {
            let at = usize::from(slot);
            if usize::from(self.index.places[at]) >= place {
                return before;
            }
            before = Some(slot);
            slot = self.index.next[at];
        }
        before
    }
}
