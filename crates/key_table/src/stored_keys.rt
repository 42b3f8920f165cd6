//! The key table over a store.
ghost use Rattle.std.specs.Prelude.{◌≡◌, ◌∷◌, [], Err, IfErr, IfNone, IfOk, IfSome, IsSome, IsTrue, None, Ok, OnErr, OnOk, OnSome, Some, drop, false, is_none, is_some, length, slice_get, true, ◌<◌, ◌≤◌};
ghost use Rattle.std.specs.Option.{option_copied, option_map};
ghost use Rattle.key_attributes.specs.SlotRows.{SlotsRise};
ghost use Rattle.disk_core.specs.DiskStates.{EachImage, Shrinks};
ghost use Rattle.disk_core.specs.Disks.{DeviceCalls, KeepsContent, fault_in};
ghost use Rattle.key_table.specs.Changes.{change_to, erasure, erasures};
ghost use Rattle.key_table.specs.Duplicates.{duplicate};
ghost use Rattle.key_table.specs.KeyRows.{find_row, put_row, row_in, slot_for, slot_of, with_row};
ghost use Rattle.key_table.specs.KeyStores.{LoadsStore, MakesChanges, done_in, is_key_missing, is_table_full, lowest_row, put_fault, remove_fault};
ghost use Rattle.key_table.specs.Permits.{permit};
ghost use Rattle.key_table.specs.StoredRows.{bad_slot, rows_of};
ghost use Rattle.key_table.specs.Tables.{is_table};
ghost use Rattle.nv_store.specs.Stores.{IsInStep};

use crate::laws::{bytes_show_rows, changed_bytes_show_changed_rows};
use crate::loading::read_rows;
use crate::replacing::replace_row;
use crate::{Denied, Erased, KeyTable, LoadFault, PutFault, RemoveFault};
use disk_core::laws::calls_are_runs;
use disk_core::{Disk, DiskError};
use key_attributes::{KeyRow, KeyValue, Use};
use nv_store::Store;
use pad_words::{KeyName, NoMemory};
use std::alloc::Global;
use std::marker::Model;

/// The keys of a store, at most 64. While it is settled, the rows are those that the store's bytes show.
#[derive(Drop)]
pub struct StoredKeys {
    keys: KeyTable,
    // Where a loading reads the rows, which are then exchanged. There is room for all.
    spare: Vec<(u8, KeyRow)>,
    store: Store,
}

impl Model for StoredKeys {
    ghost use Rattle.std.specs.Prelude.{IfSome, Some, length, vec_capacity, ◌≡◌, ◌≤◌};
    ghost use Rattle.disk_core.specs.declared.disk.TheConstants.{DISK_BYTES};
    ghost use Rattle.key_table.specs.KeyStores.{KeyStore};
    ghost use Rattle.key_table.specs.StoredRows.{rows_of};

    ghost Value = { KeyStore };

    ghost view = { λ t. record { rows = t.keys; bytes = t.store.bytes } };

    ghost invariant = { λ t. (IfSome t.store.bytes (λ bytes. (rows_of bytes ≡ Some t.keys) × (length bytes ≡ DISK_BYTES))) × (64 ≤ vec_capacity t.spare) };
}

impl StoredKeys {
    /// A table without keys, whose store is not settled. It takes all memory; no other call takes any.
    pub fn new(alloc: Global) -> Result<StoredKeys, NoMemory>
        ensures { IfOk result (λ table. (table.rows ≡ []) × (table.bytes ≡ None)) }
    {
        let keys = KeyTable::new(alloc)?;
        let store = Store::new(alloc)?;
        match Vec::with_capacity(alloc, 64) {
            Ok(spare) => Ok(StoredKeys { keys, spare, store }),
            Err(_) => Err(NoMemory),
        }
    }

    /// Whether it is known what the disk has. Then its bytes show the rows.
    pub fn settled(&self) -> bool
        ensures settled { result ≡ is_some self.now.bytes }
        ensures shows { IfSome self.now.bytes (λ bytes. rows_of bytes ≡ Some self.now.rows) }
    {
        self.store.settled()
    }

    /// All bytes of the store. They show the rows.
    pub fn bytes(&self) -> &[u8]
        requires { IsSome self.now.bytes }
        ensures bytes { self.now.bytes ≡ Some result.now }
        ensures shows { rows_of result.now ≡ Some self.now.rows }
    {
        self.store.bytes()
    }

    /// The slots and rows in order: slots rise and are below 64, and no name stands twice.
    pub fn rows(&self) -> &[(u8, KeyRow)]
        ensures rows { result.now ≡ self.now.rows }
        ensures rising { SlotsRise result.now }
        ensures table { IsTrue (is_table self.now.rows) }
        ensures few { length self.now.rows ≤ 64 }
    {
        self.keys.rows()
    }

    /// The row of this name, if the name is present.
    pub fn find(&self, name: &KeyName) -> Option<&KeyRow>
        ensures { option_copied result ≡ find_row name.now self.now.rows }
    {
        self.keys.find(name)
    }

    /// The row in this slot. None where the slot is empty.
    pub fn row(&self, slot: u8) -> Option<&KeyRow>
        ensures { option_copied result ≡ row_in slot self.now.rows }
    {
        self.keys.row(slot)
    }

    /// The value of the key of this name for this use, or why it is denied.
    pub fn permit(&self, name: &KeyName, wanted: Use) -> Result<&KeyValue, Denied>
        ensures value { IfOk result (λ value. permit self.now.rows name.now wanted ≡ Ok value.now) }
        ensures denied { IfErr result (λ denied. permit self.now.rows name.now wanted ≡ Err denied) }
    {
        self.keys.permit(name, wanted)
    }

    /// The slot of this name, if the name is present.
    pub fn slot_of(&self, name: &KeyName) -> Option<u8>
        ensures { result ≡ slot_of name.now self.now.rows }
    {
        self.keys.slot_of(name)
    }

    /// The slot of a row of this name: a present name keeps its slot, a new one takes the lowest empty slot. None where the
    /// name is absent and all 64 slots are taken.
    pub fn slot_for(&self, name: &KeyName) -> Option<u8>
        ensures { result ≡ slot_for name.now self.now.rows }
    {
        self.keys.slot_for(name)
    }

    /// The name in the lowest slot whose key makes this row a forbidden duplicate. None where there is none.
    pub fn duplicate(&self, row: &KeyRow) -> Option<KeyName>
        ensures { result ≡ duplicate row.now self.now.rows }
    {
        self.keys.duplicate(row)
    }

    /// Loads the rows of a store, by a sync and one read. The bytes that were read are then the only ones that a crash
    /// leaves, and were one of its images before. Where it is refused, the rows are those of before.
    pub fn load<D: Disk>(&mut self, disk: &mut D) -> Result<(), LoadFault>
        ensures { LoadsStore result self.old self.new (D.state disk.old) (D.state disk.new) }
    {
        bytes_show_rows();
        match self.store.load(disk) {
            Ok(()) => {}
            Err(fault) => return Err(LoadFault::Disk(fault)),
        }
        self.spare.clear();
        match read_rows(&self.store, &mut self.spare) {
            None => {
                let _bytes = self.store.bytes();
                self.keys.exchange(&mut self.spare);
                Ok(())
            }
            Some(slot) => {
                self.store.unsettle();
                Err(LoadFault::BadStore(slot))
            }
        }
    }

    /// Keeps this row, by four device calls: a present name keeps its slot, a new one takes the lowest empty slot. Refused,
    /// with nothing changed, where the name is absent and all 64 slots are taken. After a fault or a cut the rows are those
    /// of before, and a crash leaves these or those with the row.
    pub fn put<D: Disk>(&mut self, disk: &mut D, row: &KeyRow) -> Result<(), PutFault>
        requires { IsInStep (D.state disk.old) self.old.bytes }
        ensures full { is_table_full result ≡ is_none (slot_for row.now.name self.old.rows) }
        ensures refused { is_table_full result ≡ true → (self.new ≡ self.old) × (disk.new ≡ disk.old) }
        ensures work { IfSome (slot_for row.now.name self.old.rows) (λ slot.
            MakesChanges (change_to (slot, row.now) ∷ []) (done_in result) (put_fault result) self.old self.new (D.state disk.old) (D.state disk.new)) }
        ensures ok { OnOk result (IfSome (slot_for row.now.name self.old.rows) (λ slot.
            self.new.rows ≡ with_row slot row.now self.old.rows)) }
        ensures in_step { OnOk result (IsInStep (D.state disk.new) self.new.bytes) }
        ensures err { OnErr result (self.new.rows ≡ self.old.rows) }
    {
        changed_bytes_show_changed_rows();
        let _rows = self.keys.rows();
        let Some(slot) = self.keys.slot_for(&row.name) else {
            return Err(PutFault::TableFull);
        };
        match replace_row(&mut self.store, disk, slot, Some(row)) {
            Ok(()) => {}
            Err(fault) => return Err(PutFault::Disk(fault)),
        }
        self.keys.keep(slot, row);
        Ok(())
    }

    /// Empties the slot of this name, by four device calls. Refused, with nothing changed, where the name is absent. After a
    /// fault or a cut the rows are those of before, and a crash leaves these or those without the name.
    pub fn remove<D: Disk>(&mut self, disk: &mut D, name: &KeyName) -> Result<(), RemoveFault>
        requires { IsInStep (D.state disk.old) self.old.bytes }
        ensures absent { is_key_missing result ≡ is_none (slot_of name.now self.old.rows) }
        ensures refused { is_key_missing result ≡ true → (self.new ≡ self.old) × (disk.new ≡ disk.old) }
        ensures work { IfSome (slot_of name.now self.old.rows) (λ slot.
            MakesChanges (erasure slot ∷ []) (done_in result) (remove_fault result) self.old self.new (D.state disk.old) (D.state disk.new)) }
        ensures ok { OnOk result (IfSome (slot_of name.now self.old.rows) (λ slot.
            self.new.rows ≡ put_row slot None self.old.rows)) }
        ensures in_step { OnOk result (IsInStep (D.state disk.new) self.new.bytes) }
        ensures err { OnErr result (self.new.rows ≡ self.old.rows) }
    {
        let _rows = self.keys.rows();
        let Some(slot) = self.keys.slot_of(name) else {
            return Err(RemoveFault::KeyNotFound);
        };
        match self.erase(disk, slot) {
            Ok(()) => Ok(()),
            Err(fault) => Err(RemoveFault::Disk(fault)),
        }
    }

    /// Empties the slot, whatever stands there, by four device calls. After a fault or a cut the rows are those of before, and
    /// a crash leaves these or those without the slot's.
    pub fn erase<D: Disk>(&mut self, disk: &mut D, slot: u8) -> Result<(), DiskError>
        requires below { slot < 64 }
        requires in_step { IsInStep (D.state disk.old) self.old.bytes }
        ensures work { MakesChanges (erasure slot ∷ []) (done_in result) (fault_in result) self.old self.new (D.state disk.old) (D.state disk.new) }
        ensures ok { OnOk result (self.new.rows ≡ put_row slot None self.old.rows) }
        ensures in_step { OnOk result (IsInStep (D.state disk.new) self.new.bytes) }
        ensures err { OnErr result (self.new.rows ≡ self.old.rows) }
    {
        changed_bytes_show_changed_rows();
        let _rows = self.keys.rows();
        match replace_row(&mut self.store, disk, slot, None) {
            Ok(()) => {}
            Err(fault) => return Err(fault),
        }
        self.keys.erase(slot);
        Ok(())
    }

    /// Empties all occupied slots in rising order, each by four device calls, until one has a fault or a cut. The rows are
    /// then those that were not emptied, and a crash leaves these, with the next one in doubt.
    pub fn erase_all<D: Disk>(&mut self, disk: &mut D) -> Erased
        requires on { (D.state disk.old).off ≡ false }
        requires in_step { IsInStep (D.state disk.old) self.old.bytes }
        ensures work { MakesChanges (erasures self.old.rows) result.count result.fault self.old self.new (D.state disk.old) (D.state disk.new) }
        ensures rows { self.new.rows ≡ drop result.count self.old.rows }

        // The first row that is left is the one that was struck.
        ensures struck { slice_get (erasures self.old.rows) result.count ≡ option_map (λ row. erasure row.0) (lowest_row self.new.rows) }
        ensures in_step { IfNone result.fault (IsInStep (D.state disk.new) self.new.bytes) }
    {
        calls_are_runs::<D>();
        let count = self.keys.rows().len();
        for index in 0..count {
            match self.erase_first(disk) {
                Ok(()) => {}
                Err(fault) => {
                    return Erased {
                        count: index as u8,
                        fault: Some(fault),
                    };
                }
            }
        }
        Erased {
            count: count as u8,
            fault: None,
        }
    }

    // Empties the slot of the first row.
    fn erase_first<D: Disk>(&mut self, disk: &mut D) -> Result<(), DiskError>
        requires some { 0 < length self.old.rows }
        requires in_step { IsInStep (D.state disk.old) self.old.bytes }
        ensures work { IfSome (lowest_row self.old.rows) (λ first.
            MakesChanges (erasure first.0 ∷ []) (done_in result) (fault_in result) self.old self.new (D.state disk.old) (D.state disk.new)) }
        ensures rows { OnOk result (self.new.rows ≡ drop 1 self.old.rows) }
    {
        let slot = first_slot(&self.keys);
        self.erase(disk, slot)
    }
}

// The slot of the first row.
fn first_slot(keys: &KeyTable) -> u8
    requires { 0 < length keys.now }
    ensures first { IfSome (lowest_row keys.now) (λ first. result ≡ first.0) }
    ensures below { result < 64 }
    ensures table { IsTrue (is_table keys.now) }
{
    keys.rows()[0].0
}
