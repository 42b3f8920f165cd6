//! A disk in a file. No contract can say which bytes a file of the host holds, so the disk tells no content, and since
//! the host may fail any call, not what is armed either. What its calls ask of the file is told by the file's state.
ghost use Rattle.std.specs.Prelude.{◌≡◌, ◌+◌, ◌≤◌, ◌↔◌, length, IfOk, IsErr, OnOk, OnErr, Err, None, Some, true, false};
ghost use Rattle.disk_core.specs.Disks.{fault_in, strike_of, DeviceCalls, Reads, Writes, Syncs, StopsDisk, StartsDisk, ArmsDisk};
ghost use Rattle.file_disk.specs.FileDisks.{as_disk, disk_laws, fresh_disk, lengthened, with_fault, CallsFile, CountsCall, IsLengthened, PassesCall, StopsCall};
ghost use Rattle.file_disk.specs.Files.{after_sync, ChangesFile, ReadsFile, WritesFile};

use crate::file::{FileError, HostFile, RandomAccessFile};
use disk_core::laws::torn_lists;
use disk_core::{ArmDisk, DISK_BYTES, Disk, DiskError, PowerDisk, Strike, count_call};
use std::fs::{File, OpenOptions, remove_file};
use std::io::{Error, ErrorKind};
use std::marker::Model;
use std::rt::Files;
use thiserror::Error;

/// Why a file could not be opened as a disk.
#[derive(Debug, PartialEq, Eq, Drop, Error)]
pub enum OpenFault {
    /// The host refused.
    #[error("the disk's file cannot be opened")]
    Failed,
    /// Memory was wanting.
    #[error("memory is wanting")]
    NoMemory,
}

/// A disk in a file, which it reads and writes in place. A power cut stops its calls and tears nothing: the write that
/// is struck does not land. A file may be longer than a disk; what lies behind the disk's bytes is not touched.
#[derive(Drop)]
pub struct FileDisk<F: RandomAccessFile> {
    file: F,
    faults: u64,
    cuts: u64,
    failed: bool,
    off: bool,
    armed: Option<(u32, Strike)>,
}

impl<F: RandomAccessFile> Model for FileDisk<F> {
    ghost use Rattle.std.specs.Prelude.{◌≤◌};
    ghost use Rattle.std.specs.Option.{ForSome};
    ghost use Rattle.file_disk.specs.FileDisks.{FileDiskState};

    ghost Value = { FileDiskState F };

    ghost view = { λ d. record { file = d.file; faults = d.faults; cuts = d.cuts; failed = d.failed; off = d.off; armed = d.armed } };

    ghost invariant = { λ d. ForSome d.armed (λ a. 1 ≤ a.0) };
}

impl FileDisk<HostFile> {
    /// The disk in the file of this path, on and unarmed, with no fault and no cut. A file that is missing is made with
    /// zero bytes, and one that is shorter than a disk is lengthened with zero bytes. Where the host refuses, no file
    /// is changed: one that was made and cannot be lengthened is removed.
    pub fn on_path<R: Files<File = File>>(
        rt: &R,
        path: &str,
    ) -> Result<FileDisk<HostFile>, OpenFault>
        ensures { IfOk result (λ d. d ≡ fresh_disk d.file) }
    {
        let mut options = File::options();
        options.read(true).write(true);
        match options.open(rt, path) {
            Ok(file) => FileDisk::over(HostFile::of(file)),
            Err(error) if error.kind() == ErrorKind::NotFound => make(rt, options, path),
            Err(error) => Err(open_fault(&error)),
        }
    }
}

impl<F: RandomAccessFile> FileDisk<F> {
    /// The disk in this file, on and unarmed, with no fault and no cut. A file that is shorter than a disk is
    /// lengthened with zero bytes, and a longer one stays as it is. Refused with [`OpenFault::Failed`] where a call of
    /// the file failed; [`lengthen`] says what stands then.
    pub fn over(mut file: F) -> Result<FileDisk<F>, OpenFault>
    where
        F: Drop,
        ensures fresh { IfOk result (λ d. d ≡ fresh_disk d.file) }
        ensures file { IfOk result (λ d. IsLengthened (F.state file) (F.state d.file)) }
        ensures failed { OnErr result (result ≡ Err OpenFault.Failed) }
    {
        match lengthen(&mut file) {
            Ok(()) => Ok(FileDisk {
                file,
                faults: 0,
                cuts: 0,
                failed: false,
                off: false,
                armed: None,
            }),
            Err(FileError) => Err(OpenFault::Failed),
        }
    }

    /// The file.
    pub fn file(&self) -> &F
        ensures { result.now ≡ self.now.file }
    {
        &self.file
    }

    // Counts a call. It goes on where the disk is on and the call is not struck.
    fn begin(&mut self) -> Result<(), DiskError>
        ensures passes { OnOk result (PassesCall self.old self.new) }
        ensures stops { OnErr result (StopsCall self.old self.new (fault_in result)) }
    {
        if self.off {
            return Err(DiskError::Off);
        }
        self.failed = false;
        match count_call(&mut self.armed) {
            None => Ok(()),
            Some(Strike::Fail) => self.fail(),
            Some(Strike::Cut(_)) => {
                self.cuts = self.cuts.saturating_add(1);
                self.off = true;
                Err(DiskError::Off)
            }
        }
    }

    // Counts the failure of the file, where it failed.
    fn end(&mut self, done: Result<(), FileError>) -> Result<(), DiskError>
        ensures fails { IsErr result ↔ IsErr done }
        ensures ok { OnOk result (self.new ≡ self.old) }
        ensures err { OnErr result (self.new ≡ with_fault self.old) }
        ensures failed { OnErr result (result ≡ Err DiskError.Failed) }
    {
        match done {
            Ok(()) => Ok(()),
            Err(FileError) => self.fail(),
        }
    }

    fn fail(&mut self) -> Result<(), DiskError>
        ensures result { result ≡ Err DiskError.Failed }
        ensures counts { self.new ≡ with_fault self.old }
    {
        self.faults = self.faults.saturating_add(1);
        self.failed = true;
        Err(DiskError::Failed)
    }
}

impl<F: RandomAccessFile> Disk for FileDisk<F> {
    ghost state = { as_disk };

    ghost laws = { disk_laws };

    fn read(&mut self, at: u32, buf: &mut [u8]) -> Result<(), DiskError>
        requires { at + length buf.old ≤ DISK_BYTES }
        ensures calls { DeviceCalls 1 (as_disk self.old) (as_disk self.new) (fault_in result) }
        ensures step { Reads at buf.new (as_disk self.old) (as_disk self.new) (fault_in result) }
        ensures counts { CountsCall self.old self.new (fault_in result) }
        ensures file { CallsFile self.old self.new F.state (ReadsFile at buf.new) result }
    {
        self.begin()?;
        let done = self.file.read_exact_at(u64::from(at), buf);
        self.end(done)
    }

    fn write_at(&mut self, at: u32, bytes: &[u8]) -> Result<(), DiskError>
        requires { at + length bytes.now ≤ DISK_BYTES }
        ensures calls { DeviceCalls 1 (as_disk self.old) (as_disk self.new) (fault_in result) }
        ensures step { Writes at bytes.now (as_disk self.old) (as_disk self.new) (fault_in result) }
        ensures counts { CountsCall self.old self.new (fault_in result) }
        ensures file { CallsFile self.old self.new F.state (WritesFile at bytes.now) result }
    {
        torn_lists();
        self.begin()?;
        let done = self.file.write_all_at(u64::from(at), bytes);
        self.end(done)
    }

    fn sync(&mut self) -> Result<(), DiskError>
        ensures calls { DeviceCalls 1 (as_disk self.old) (as_disk self.new) (fault_in result) }
        ensures step { Syncs (as_disk self.old) (as_disk self.new) (fault_in result) }
        ensures counts { CountsCall self.old self.new (fault_in result) }
        ensures file { CallsFile self.old self.new F.state (ChangesFile after_sync) result }
    {
        self.begin()?;
        let done = self.file.sync_all();
        self.end(done)
    }
}

impl<F: RandomAccessFile> PowerDisk for FileDisk<F> {
    fn off(&mut self)
        ensures stops { StopsDisk (as_disk self.old) (as_disk self.new) }
        ensures effect { self.new ≡ record self.old { off = true } }
    {
        self.off = true;
    }

    fn on(&mut self)
        ensures starts { StartsDisk (as_disk self.old) (as_disk self.new) }
        ensures effect { self.new ≡ record self.old { off = false } }
    {
        self.off = false;
    }
}

impl<F: RandomAccessFile> ArmDisk for FileDisk<F> {
    fn arm(&mut self, call: u32, strike: Strike)
        requires { 1 ≤ call }
        ensures arms { ArmsDisk call strike (as_disk self.old) (as_disk self.new) }
        ensures effect { self.new ≡ record self.old { armed = Some (call, strike) } }
    {
        self.armed = Some((call, strike));
    }
}

/// Lengthens a file that is shorter than a disk with zero bytes, and leaves a longer one as it is. Where a call of the
/// file fails, so does this, and the file's content is as it was.
pub fn lengthen<F: RandomAccessFile>(file: &mut F) -> Result<(), FileError>
    ensures lengthens { ChangesFile lengthened (F.state file.old) (F.state file.new) result }
{
    if file.len()? < DISK_BYTES as u64 {
        file.set_len(DISK_BYTES as u64)?;
    }
    Ok(())
}

// Makes a file of zero bytes. One that cannot be lengthened is removed.
fn make<R: Files<File = File>>(
    rt: &R,
    mut options: OpenOptions,
    path: &str,
) -> Result<FileDisk<HostFile>, OpenFault>
    ensures { IfOk result (λ d. d ≡ fresh_disk d.file) }
{
    let file = match options.create_new(true).open(rt, path) {
        Ok(file) => file,
        Err(error) => return Err(open_fault(&error)),
    };
    match FileDisk::over(HostFile::of(file)) {
        Ok(disk) => Ok(disk),
        Err(fault) => match remove_file(rt, path) {
            Ok(()) => Err(fault),
            Err(error) => Err(open_fault(&error)),
        },
    }
}

// Why the host refused.
fn open_fault(error: &Error) -> OpenFault {
    if error.kind() == ErrorKind::OutOfMemory {
        OpenFault::NoMemory
    } else {
        OpenFault::Failed
    }
}
