//! A disk in memory, of which each call can be made to fail and each power cut to tear what is not synced.
ghost use Rattle.std.specs.Prelude.{◌≡◌, ◌+◌, ◌≤◌, length, slice_range, OnErr, Some, replicate, true, false};
ghost use Rattle.std.specs.Option.{ForSome};
ghost use Rattle.disk_core.specs.declared.disk.TheConstants.{DISK_BYTES};
ghost use Rattle.disk_core.specs.DiskStates.{splice, IsOnlyImage};
ghost use Rattle.disk_core.specs.Disks.{fault_in, DeviceCalls, Reads, Writes, Syncs, StopsDisk, StartsDisk, ArmsDisk};
ghost use Rattle.disk_core.specs.DiskMemories.{memory_state, fresh_memory, settled_byte, IsSettledBy, LosesPower, HasReadEffect, HasWriteEffect, HasSyncEffect, HasOnEffect};

use crate::arming::count_call;
use crate::disk::{ArmDisk, DISK_BYTES, Disk, DiskError, Keep, PowerDisk, Strike};

/// A disk in memory. It tells its bytes and what is armed. Beside each byte it has what that was at the last sync, and
/// whether it was written since. A power cut makes of the bytes that were written since what its [`Keep`] says, and
/// `off` leaves them as at the last sync.
#[derive(Drop)]
pub struct MemDisk {
    bytes: [u8; DISK_BYTES],
    synced: [u8; DISK_BYTES],
    dirty: [bool; DISK_BYTES],
    faults: u64,
    cuts: u64,
    failed: bool,
    off: bool,
    armed: Option<(u32, Strike)>,
    ghost bytes_size: { length bytes ≡ DISK_BYTES },
    ghost synced_size: { length synced ≡ DISK_BYTES },
    ghost dirty_size: { length dirty ≡ DISK_BYTES },
    ghost later: { ForSome armed (λ a. 1 ≤ a.0) },
}

impl MemDisk {
    ghost use Rattle.disk_core.specs.MemoryDisks.{memory_of};

    /// A disk of zero bytes that is on, with no fault and no cut.
    pub fn new() -> MemDisk
        ensures memory { memory_of result ≡ fresh_memory (replicate DISK_BYTES 0) }
        ensures stable { IsOnlyImage (replicate DISK_BYTES 0) (memory_state (memory_of result)) }
    {
        MemDisk::of([0; DISK_BYTES])
    }

    /// A disk of these bytes that is on, with no fault and no cut. A crash leaves them and nothing else.
    pub fn of(bytes: [u8; DISK_BYTES]) -> MemDisk
        ensures memory { memory_of result ≡ fresh_memory bytes }
        ensures stable { IsOnlyImage bytes (memory_state (memory_of result)) }
    {
        MemDisk {
            bytes,
            synced: bytes,
            dirty: [false; DISK_BYTES],
            faults: 0,
            cuts: 0,
            failed: false,
            off: false,
            armed: None,
        }
    }

    // One call, which writes a part if it is not struck before.
    fn call(&mut self, at: usize, part: &[u8]) -> Result<(), DiskError>
        requires { at + length part.now ≤ DISK_BYTES }
        ensures calls { DeviceCalls 1 (memory_state (memory_of self.old)) (memory_state (memory_of self.new)) (fault_in result) }
        ensures step { Writes at part.now (memory_state (memory_of self.old)) (memory_state (memory_of self.new)) (fault_in result) }
        ensures effect { HasWriteEffect at part.now (memory_of self.old) (memory_of self.new) }
    {
        if self.off {
            return Err(DiskError::Off);
        }
        self.failed = false;
        match count_call(&mut self.armed) {
            None => {
                write_into(&mut self.bytes, &mut self.dirty, at, part);
                Ok(())
            }
            Some(Strike::Fail) => {
                self.faults = self.faults.saturating_add(1);
                self.failed = true;
                Err(DiskError::Failed)
            }
            Some(Strike::Cut(keep)) => {
                write_into(&mut self.bytes, &mut self.dirty, at, part);
                settle(keep, &self.synced, &mut self.bytes, &self.dirty);
                sync_all(&mut self.synced, &self.bytes, &mut self.dirty);
                self.off = true;
                self.cuts = self.cuts.saturating_add(1);
                Err(DiskError::Off)
            }
        }
    }
}

impl Disk for MemDisk {
    ghost use Rattle.disk_core.specs.MemoryDisks.{memory_of, memory_laws};

    ghost state = { λ d. memory_state (memory_of d) };

    ghost laws = { memory_laws };

    fn read(&mut self, at: u32, buf: &mut [u8]) -> Result<(), DiskError>
        requires { at + length buf.old ≤ DISK_BYTES }
        ensures calls { DeviceCalls 1 (memory_state (memory_of self.old)) (memory_state (memory_of self.new)) (fault_in result) }
        ensures step { Reads at buf.new (memory_state (memory_of self.old)) (memory_state (memory_of self.new)) (fault_in result) }
        ensures effect { HasReadEffect (memory_of self.old) (memory_of self.new) }
        ensures untouched { OnErr result (buf.new ≡ buf.old) }
    {
        self.call(0, &[])?;
        read_from(&self.bytes, at as usize, buf);
        Ok(())
    }

    fn write_at(&mut self, at: u32, bytes: &[u8]) -> Result<(), DiskError>
        requires { at + length bytes.now ≤ DISK_BYTES }
        ensures calls { DeviceCalls 1 (memory_state (memory_of self.old)) (memory_state (memory_of self.new)) (fault_in result) }
        ensures step { Writes at bytes.now (memory_state (memory_of self.old)) (memory_state (memory_of self.new)) (fault_in result) }
        ensures effect { HasWriteEffect at bytes.now (memory_of self.old) (memory_of self.new) }
    {
        self.call(at as usize, bytes)
    }

    fn sync(&mut self) -> Result<(), DiskError>
        ensures calls { DeviceCalls 1 (memory_state (memory_of self.old)) (memory_state (memory_of self.new)) (fault_in result) }
        ensures step { Syncs (memory_state (memory_of self.old)) (memory_state (memory_of self.new)) (fault_in result) }
        ensures effect { HasSyncEffect (memory_of self.old) (memory_of self.new) }
    {
        self.call(0, &[])?;
        sync_all(&mut self.synced, &self.bytes, &mut self.dirty);
        Ok(())
    }
}

impl PowerDisk for MemDisk {
    ghost use Rattle.disk_core.specs.MemoryDisks.{memory_of};
    ghost use Rattle.disk_core.specs.declared.disk.Keep.TheVariants.{Old};

    fn off(&mut self)
        ensures stops { StopsDisk (memory_state (memory_of self.old)) (memory_state (memory_of self.new)) }
        ensures effect { LosesPower Old (memory_of self.old) (memory_of self.new) }
    {
        settle(Keep::Old, &self.synced, &mut self.bytes, &self.dirty);
        sync_all(&mut self.synced, &self.bytes, &mut self.dirty);
        self.off = true;
    }

    fn on(&mut self)
        ensures starts { StartsDisk (memory_state (memory_of self.old)) (memory_state (memory_of self.new)) }
        ensures effect { HasOnEffect (memory_of self.old) (memory_of self.new) }
    {
        if self.off {
            sync_all(&mut self.synced, &self.bytes, &mut self.dirty);
            self.off = false;
        }
    }
}

impl ArmDisk for MemDisk {
    ghost use Rattle.disk_core.specs.MemoryDisks.{memory_of};

    fn arm(&mut self, call: u32, strike: Strike)
        requires { 1 ≤ call }
        ensures arms { ArmsDisk call strike (memory_state (memory_of self.old)) (memory_state (memory_of self.new)) }
        ensures effect { memory_of self.new ≡ record (memory_of self.old) { armed = Some (call, strike) } }
    {
        self.armed = Some((call, strike));
    }
}

// What is there is what a crash leaves.
fn sync_all(synced: &mut [u8], bytes: &[u8], dirty: &mut [bool])
    requires { length synced.old ≡ length bytes.now }
    ensures synced { synced.new ≡ bytes.now }
    ensures dirty { dirty.new ≡ replicate (length dirty.old) false }
{
    synced.copy_from_slice(bytes);
    dirty.fill(false);
}

// Reads a range.
fn read_from(bytes: &[u8], at: usize, buf: &mut [u8])
    requires { at + length buf.old ≤ length bytes.now }
    ensures { buf.new ≡ slice_range bytes.now at (at + length buf.old) }
{
    buf.copy_from_slice(&bytes[at..at + buf.len()]);
}

// Writes into a range, which is then not synced.
fn write_into(bytes: &mut [u8], dirty: &mut [bool], at: usize, part: &[u8])
    requires bytes { at + length part.now ≤ length bytes.old }
    requires dirty { at + length part.now ≤ length dirty.old }
    ensures bytes { bytes.new ≡ splice bytes.old at part.now }
    ensures dirty { dirty.new ≡ splice dirty.old at (replicate (length part.now) true) }
{
    bytes[at..at + part.len()].copy_from_slice(part);
    dirty[at..at + part.len()].fill(true);
}

// What a power cut makes of the bytes that are not synced.
fn settle(keep: Keep, synced: &[u8], bytes: &mut [u8], dirty: &[bool])
    requires synced { length synced.now ≡ length bytes.old }
    requires dirty { length dirty.now ≡ length bytes.old }
    ensures { IsSettledBy keep synced.now bytes.old dirty.now bytes.new }
{
    for i in 0..bytes.len() {
        bytes[i] = settled(keep, dirty[i], synced[i], bytes[i]);
    }
}

fn settled(keep: Keep, dirty: bool, old: u8, new: u8) -> u8
    ensures { result ≡ settled_byte keep dirty old new }
{
    if !dirty {
        return new;
    }
    match keep {
        Keep::Old => old,
        Keep::New => new,
        Keep::Fill(byte) => byte,
    }
}
