//! A disk that may fail and whose power may be cut.
//!
//! What a crash may leave of a disk is a set of crash images. Between two syncs that succeeded, the bytes of each
//! range that was written, of a write that failed or was cut too, may be anything after a crash; all other bytes stay.
//! After a sync that succeeded a crash leaves what a read gives. What a read gives is always one of the images.
//!
//! A call answers that it failed only where the count of faults rose, and that the disk is off only where the disk was
//! off or the count of cuts rose. A power cut at a moment inside a call is that call's answer [`DiskError::Off`]; one
//! between two calls is the answer of the next call, or [`PowerDisk::off`]. On a disk that does not tell what is armed
//! every call may answer so. A claim over every disk is thereby one on a power cut at every moment.
ghost use Rattle.std.specs.Prelude.{◌≡◌, ◌+◌, ◌≤◌, ◌<◌, length};
ghost use Rattle.disk_core.specs.DiskStates.{DiskState, IsDiskState};
ghost use Rattle.disk_core.specs.Disks.{fault_in, DeviceCalls, Reads, Writes, Syncs, StopsDisk, StartsDisk, ArmsDisk};

/// How many bytes a disk has.
pub const DISK_BYTES: usize = 12352;

/// Why a call did not succeed.
#[derive(Clone, Copy, Debug, PartialEq, Eq)]
pub enum DiskError {
    /// The call failed, and the disk is on.
    Failed,
    /// The disk is off: it was so before the call, or the power was cut in it.
    Off,
}

/// What a power cut makes of the bytes that were written since the last sync.
#[derive(Clone, Copy, Debug, PartialEq, Eq)]
pub enum Keep {
    /// As they were at the last sync.
    Old,
    /// As they were written.
    New,
    /// Each is this byte.
    Fill(u8),
}

/// What is to happen to a call.
#[derive(Clone, Copy, Debug, PartialEq, Eq)]
pub enum Strike {
    /// It fails.
    Fail,
    /// The power is cut in it.
    Cut(Keep),
}

/// A disk of [`DISK_BYTES`] bytes.
///
/// A count of faults or cuts never falls, stays where a call succeeds, and stands still at 2^64 - 1. A disk goes off only by
/// [`PowerDisk::off`] or by a call that answers [`DiskError::Off`], and every call of a disk that is off answers so.
/// A disk that tells what is armed fails and cuts as it is armed and in no other way.
pub trait Disk {
    /// What a read gives and what is armed, each where the disk tells it; the crash images; the counts of faults and
    /// of cuts; and whether the disk is off.
    ghost state: { Self → DiskState };

    /// Puts the bytes from `at` on into the buffer. A read that does not succeed leaves any bytes in it.
    fn read(&mut self, at: u32, buf: &mut [u8]) -> Result<(), DiskError>
        requires { at + length buf.old ≤ DISK_BYTES }
        ensures calls { DeviceCalls 1 (state self.old) (state self.new) (fault_in result) }
        ensures step { Reads at buf.new (state self.old) (state self.new) (fault_in result) };

    /// Writes these bytes from `at` on. A write that fails may leave any bytes in the range. Until a sync a crash may
    /// leave any bytes there, whatever was answered.
    fn write_at(&mut self, at: u32, bytes: &[u8]) -> Result<(), DiskError>
        requires { at + length bytes.now ≤ DISK_BYTES }
        ensures calls { DeviceCalls 1 (state self.old) (state self.new) (fault_in result) }
        ensures step { Writes at bytes.now (state self.old) (state self.new) (fault_in result) };

    /// Makes stable what was written: after a sync that succeeds a crash leaves what a read gives.
    fn sync(&mut self) -> Result<(), DiskError>
        ensures calls { DeviceCalls 1 (state self.old) (state self.new) (fault_in result) }
        ensures step { Syncs (state self.old) (state self.new) (fault_in result) };

    /// What a read gives is a crash image, each image has the disk's size, and the number of a call that is told as
    /// armed is at least 1.
    ghost laws: { (disk : Self) → IsDiskState (state disk) };
}

/// A disk that can be switched. Neither call raises a count or changes what is armed.
pub trait PowerDisk: Disk {
    /// Stops the disk.
    fn off(&mut self)
        ensures { StopsDisk (Self.state self.old) (Self.state self.new) };

    /// Starts a disk that is off with one of its crash images, which is then stable. Nothing happens to a disk that
    /// is on.
    fn on(&mut self)
        ensures { StartsDisk (Self.state self.old) (Self.state self.new) };
}

/// A disk of which a call can be struck.
pub trait ArmDisk: PowerDisk {
    /// Lets the `call`-th call from now strike, where 1 is the next. Reads, writes and syncs count, but for those that
    /// find the disk off. An earlier arming is replaced, and a strike disarms.
    fn arm(&mut self, call: u32, strike: Strike)
        requires { 1 ≤ call }
        ensures { ArmsDisk call strike (Self.state self.old) (Self.state self.new) };
}
