//! The store.
ghost use Rattle.std.specs.Prelude.{◌≡◌, ◌+◌, ◌<◌, ◌≤◌, IfOk, IfSome, IsSome, None, OnErr, OnOk, Some, is_some, length};
ghost use Rattle.std.specs.Option.{option_map};
ghost use Rattle.disk_core.specs.DiskStates.{EachImage, IsOnlyImage, Shrinks, TearsWithin, splice};
ghost use Rattle.disk_core.specs.Disks.{DeviceCalls, KeepsContent, fault_in};
ghost use Rattle.nv_store.specs.Cells.{IsTorn, cell_of, with_cell};
ghost use Rattle.nv_store.specs.Stores.{IsInStep};

use crate::places::{cell_at, half_place, put_cell, spare_half};
use disk_core::{DISK_BYTES, Disk, DiskError};
use pad_words::NoMemory;
use std::alloc::Global;
use std::marker::Model;

/// How many slots a store has.
pub const SLOTS: u8 = 64;

/// How many bytes a cell has.
pub const CELL_BYTES: usize = 96;

/// The bytes of a disk, as they were loaded and then replaced slot by slot. It is *settled* after a load that
/// succeeded until a call that does not: then it is known what the disk has, and contracts see those bytes.
#[derive(Drop)]
pub struct Store {
    bytes: Vec<u8>,
    settled: bool,
}

impl Model for Store {
    ghost use Rattle.std.specs.Prelude.{◌≡◌, None, Some, if◌then◌else◌, length};
    ghost use Rattle.disk_core.specs.declared.disk.TheConstants.{DISK_BYTES};
    ghost use Rattle.nv_store.specs.Stores.{Stored};

    ghost Value = { Stored };

    ghost view = { λ s. record { bytes = if s.settled then Some s.bytes.items else None } };

    ghost invariant = { λ s. length s.bytes.items ≡ DISK_BYTES };
}

impl Store {
    /// A store that is not settled. It takes the memory for all bytes of a disk; no other call takes any.
    pub fn new(alloc: Global) -> Result<Store, NoMemory>
        ensures { IfOk result (λ store. store.bytes ≡ None) }
    {
        match vec![in alloc; 0; DISK_BYTES] {
            Ok(bytes) => Ok(Store {
                bytes,
                settled: false,
            }),
            Err(_) => Err(NoMemory),
        }
    }

    /// Loads all bytes, by a sync and one read. Then the bytes that were read are the only ones that a crash leaves, and
    /// they are one of the images that a crash could leave before. After a fault the store is not settled.
    pub fn load<D: Disk>(&mut self, disk: &mut D) -> Result<(), DiskError>
        ensures calls { DeviceCalls 2 (D.state disk.old) (D.state disk.new) (fault_in result) }
        ensures image { Shrinks (D.state disk.old) (D.state disk.new) }
        ensures content { KeepsContent (D.state disk.old) (D.state disk.new) }
        ensures in_step { OnOk result (IsInStep (D.state disk.new) self.new.bytes) }
        ensures was_image { OnOk result (IfSome self.new.bytes (λ bytes. IfSome (D.state disk.old).content (λ _. (D.state disk.old).image bytes))) }
        ensures err { OnErr result (self.new.bytes ≡ None) }
    {
        self.settled = false;
        disk.sync()?;
        disk.read(0, &mut self.bytes)?;
        self.settled = true;
        Ok(())
    }

    /// Whether it is known what the disk has.
    pub fn settled(&self) -> bool
        ensures { result ≡ is_some self.now.bytes }
    {
        self.settled
    }

    /// From here on it is not known what the disk has.
    pub fn unsettle(&mut self)
        ensures { self.new.bytes ≡ None }
    {
        self.settled = false;
    }

    /// All bytes of the store.
    pub fn bytes(&self) -> &[u8]
        requires { IsSome self.now.bytes }
        ensures bytes { self.now.bytes ≡ Some result.now }
        ensures length { length result.now ≡ DISK_BYTES }
    {
        &self.bytes
    }

    /// The cell of a slot.
    pub fn cell(&self, slot: u8) -> &[u8; 96]
        requires slot { slot < SLOTS }
        requires settled { IsSome self.now.bytes }
        ensures { IfSome self.now.bytes (λ bytes. result.now ≡ cell_of bytes slot) }
    {
        let at = half_place(slot, 1 - spare_half(&self.bytes, slot));
        cell_at(&self.bytes, at)
    }

    /// Replaces the cell of a slot, by four device calls: the cell into the half that does not count, a sync, the
    /// selector, a sync. After a fault or a cut in any of them a crash leaves the bytes of before, torn in a way that
    /// leaves the slot's old cell or its new one, whole (`laws::slots_stay_whole`); then the store is not settled.
    pub fn replace<D: Disk>(
        &mut self,
        disk: &mut D,
        slot: u8,
        cell: &[u8; 96],
    ) -> Result<(), DiskError>
        requires slot { slot < SLOTS }
        requires in_step { IsInStep (D.state disk.old) self.old.bytes }
        ensures calls { DeviceCalls 4 (D.state disk.old) (D.state disk.new) (fault_in result) }
        ensures ok { OnOk result (IfSome self.old.bytes (λ bytes. self.new.bytes ≡ Some (with_cell bytes slot cell.now))) }
        ensures in_step { OnOk result (IsInStep (D.state disk.new) self.new.bytes) }
        ensures torn { OnErr result (IfSome self.old.bytes (λ bytes. EachImage (D.state disk.new) (IsTorn bytes slot cell.now))) }
        ensures err { OnErr result (self.new.bytes ≡ None) }
    {
        let spare = spare_half(&self.bytes, slot);
        let at = half_place(slot, spare);
        self.settled = false;
        write_synced(disk, at as u32, cell)?;
        write_synced(disk, slot as u32, &[spare])?;
        put_cell(&mut self.bytes, at, cell, slot, spare);
        self.settled = true;
        Ok(())
    }
}

// Writes, and syncs. After a fault or a cut a crash may leave any bytes in the range.
fn write_synced<D: Disk>(disk: &mut D, at: u32, bytes: &[u8]) -> Result<(), DiskError>
    requires { at + length bytes.now ≤ DISK_BYTES }
    ensures calls { DeviceCalls 2 (D.state disk.old) (D.state disk.new) (fault_in result) }
    ensures image { TearsWithin at (length bytes.now) (D.state disk.old) (D.state disk.new) }
    ensures written { OnOk result ((D.state disk.new).content ≡ option_map (λ c. splice c at bytes.now) (D.state disk.old).content) }
    ensures durable { OnOk result (IfSome (D.state disk.new).content (λ c. IsOnlyImage c (D.state disk.new))) }
{
    disk.write_at(at, bytes)?;
    disk.sync()
}
