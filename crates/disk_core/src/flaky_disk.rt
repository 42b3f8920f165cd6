//! A disk that fails the calls of a list, round another disk.
ghost use Rattle.std.specs.Prelude.{◌≡◌, ◌+◌, ◌≤◌, length, OnOk, OnErr, Err, None, Some, true, false};
ghost use Rattle.disk_core.specs.Causes.{next_count};
ghost use Rattle.disk_core.specs.Disks.{fault_in, is_cut, DeviceCalls, Reads, Writes, Syncs, StopsDisk, StartsDisk, ArmsDisk};
ghost use Rattle.disk_core.specs.FlakyDisks.{flaky_state, flaky_laws, with_call, with_failed_call, IsToFail, CountsFlakyCall};

use crate::disk::{ArmDisk, DISK_BYTES, Disk, DiskError, PowerDisk, Strike};
use crate::failing_calls::Calls;
use std::marker::Model;

/// A disk that fails the calls of a list, and hands all others to the disk inside. Its reads, writes and syncs are
/// numbered from 1 over its life, but for those that find it off. A call that it fails does nothing to the disk inside.
/// Its count of faults is that of the disk inside plus these, at most 2^64 - 1.
#[derive(Drop)]
pub struct FlakyDisk<D: ArmDisk> {
    inner: D,
    fails: Calls,
    calls: u64,
    faults: u64,
    failed: bool,
    off: bool,
}

impl<D: ArmDisk> Model for FlakyDisk<D> {
    ghost use Rattle.std.specs.Prelude.{◌≡◌};
    ghost use Rattle.disk_core.specs.FlakyDisks.{FlakyState};

    ghost Value = { FlakyState D };

    ghost view = { λ f. record { inner = f.inner; fails = f.fails; calls = f.calls; faults = f.faults; failed = f.failed } };

    ghost invariant = { λ f. f.off ≡ (D.state f.inner).off };
}

impl<D: ArmDisk> FlakyDisk<D> {
    /// A disk round this one, which is on, with no call yet.
    pub fn new(inner: D, fails: Calls) -> FlakyDisk<D>
        requires { (D.state inner).off ≡ false }
        ensures { result ≡ record { inner = inner; fails = fails; calls = 0; faults = 0; failed = false } }
    {
        FlakyDisk {
            inner,
            fails,
            calls: 0,
            faults: 0,
            failed: false,
            off: false,
        }
    }

    // Counts a call. It goes on where the disk is on and the call is not to fail.
    fn begin(&mut self) -> Result<(), DiskError>
        ensures ok { OnOk result (self.new ≡ with_call self.old) }
        ensures on { OnOk result ((D.state self.old.inner).off ≡ false) }
        ensures passes { OnOk result (IsToFail self.old → ⊥) }
        ensures calls { OnErr result (DeviceCalls 1 (flaky_state D.state self.old) (flaky_state D.state self.new) (fault_in result)) }
        ensures same { OnErr result (self.new.inner ≡ self.old.inner) }
        ensures off { OnErr result ((D.state self.old.inner).off ≡ true → (result ≡ Err DiskError.Off) × (self.new ≡ self.old)) }
        ensures failed { OnErr result ((D.state self.old.inner).off ≡ false → (result ≡ Err DiskError.Failed) × IsToFail self.old × (self.new ≡ with_failed_call self.old)) }
    {
        if self.off {
            return Err(DiskError::Off);
        }
        self.calls = self.calls.saturating_add(1);
        self.failed = self.fails.has(self.calls);
        if self.failed {
            self.faults = self.faults.saturating_add(1);
            return Err(DiskError::Failed);
        }
        Ok(())
    }
}

impl<D: ArmDisk> Disk for FlakyDisk<D> {
    ghost state = { flaky_state D.state };

    ghost laws = { flaky_laws D.state D.laws };

    fn read(&mut self, at: u32, buf: &mut [u8]) -> Result<(), DiskError>
        requires { at + length buf.old ≤ DISK_BYTES }
        ensures calls { DeviceCalls 1 (flaky_state D.state self.old) (flaky_state D.state self.new) (fault_in result) }
        ensures step { Reads at buf.new (flaky_state D.state self.old) (flaky_state D.state self.new) (fault_in result) }
        ensures counts { CountsFlakyCall D.state (Reads at buf.new) self.old self.new (fault_in result) }
    {
        self.begin()?;
        let done = self.inner.read(at, buf);
        self.off = is_off(&done);
        done
    }

    fn write_at(&mut self, at: u32, bytes: &[u8]) -> Result<(), DiskError>
        requires { at + length bytes.now ≤ DISK_BYTES }
        ensures calls { DeviceCalls 1 (flaky_state D.state self.old) (flaky_state D.state self.new) (fault_in result) }
        ensures step { Writes at bytes.now (flaky_state D.state self.old) (flaky_state D.state self.new) (fault_in result) }
        ensures counts { CountsFlakyCall D.state (Writes at bytes.now) self.old self.new (fault_in result) }
    {
        self.begin()?;
        let done = self.inner.write_at(at, bytes);
        self.off = is_off(&done);
        done
    }

    fn sync(&mut self) -> Result<(), DiskError>
        ensures calls { DeviceCalls 1 (flaky_state D.state self.old) (flaky_state D.state self.new) (fault_in result) }
        ensures step { Syncs (flaky_state D.state self.old) (flaky_state D.state self.new) (fault_in result) }
        ensures counts { CountsFlakyCall D.state Syncs self.old self.new (fault_in result) }
    {
        self.begin()?;
        let done = self.inner.sync();
        self.off = is_off(&done);
        done
    }
}

impl<D: ArmDisk> PowerDisk for FlakyDisk<D> {
    fn off(&mut self)
        ensures stops { StopsDisk (flaky_state D.state self.old) (flaky_state D.state self.new) }
        ensures inner { StopsDisk (D.state self.old.inner) (D.state self.new.inner) }
        ensures rest { self.new ≡ record self.old { inner = self.new.inner } }
    {
        self.inner.off();
        self.off = true;
    }

    fn on(&mut self)
        ensures starts { StartsDisk (flaky_state D.state self.old) (flaky_state D.state self.new) }
        ensures inner { StartsDisk (D.state self.old.inner) (D.state self.new.inner) }
        ensures rest { self.new ≡ record self.old { inner = self.new.inner } }
    {
        self.inner.on();
        self.off = false;
    }
}

impl<D: ArmDisk> ArmDisk for FlakyDisk<D> {
    fn arm(&mut self, call: u32, strike: Strike)
        requires { 1 ≤ call }
        ensures arms { ArmsDisk call strike (flaky_state D.state self.old) (flaky_state D.state self.new) }
        ensures inner { ArmsDisk call strike (D.state self.old.inner) (D.state self.new.inner) }
        ensures rest { self.new ≡ record self.old { inner = self.new.inner } }
    {
        self.inner.arm(call, strike);
    }
}

// The power is off after this answer.
fn is_off(done: &Result<(), DiskError>) -> bool
    ensures { result ≡ is_cut (fault_in done.now) }
{
    matches!(done, Err(DiskError::Off))
}
