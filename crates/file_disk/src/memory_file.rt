//! A file in memory.
ghost use Rattle.std.specs.Prelude.{◌≡◌, ◌+◌, ◌≤◌, ◌<◌, length, Err, false, IfOk, OnOk, OnErr};
ghost use Rattle.disk_core.specs.Causes.{next_count, HasCause};
ghost use Rattle.file_disk.specs.Files.{after_resize, after_sync, after_write, ChangesFile, MeasuresFile, ReadsFile, WritesFile};
ghost use Rattle.file_disk.specs.MemoryFiles.{as_file, fresh_file, with_call, with_change, with_failed_call, CountsFileCall, IsPastEnd, IsPastRoom, IsToFail};

use crate::file::{FileError, RandomAccessFile};
use disk_core::Calls;
use pad_words::NoMemory;
use std::alloc::Global;
use std::marker::Model;

/// A file that keeps its bytes in memory, up to a bound, and fails the calls of a list. A call that fails does nothing.
#[derive(Drop)]
pub struct MemFile {
    bytes: Vec<u8>,
    is_synced: bool,
    room: usize,
    fails: Calls,
    calls: u64,
    faults: u64,
}

impl Model for MemFile {
    ghost use Rattle.std.specs.Prelude.{◌≤◌, vec_len, vec_capacity};
    ghost use Rattle.file_disk.specs.MemoryFiles.{MemFileState};

    ghost Value = { MemFileState };

    ghost view = { λ m. record { content = record { bytes = m.bytes.items; is_synced = m.is_synced }; room = m.room; fails = m.fails; calls = m.calls; faults = m.faults } };

    ghost invariant = { λ m. (vec_len m.bytes ≤ m.room) × (m.room ≤ vec_capacity m.bytes) };
}

impl MemFile {
    /// A file of these bytes, of which none is synced, with room for `room` bytes in all. It takes all its memory here.
    pub fn of(alloc: Global, bytes: &[u8], room: usize, fails: Calls) -> Result<MemFile, NoMemory>
        requires { length bytes.now ≤ room }
        ensures { IfOk result (λ m. m ≡ fresh_file bytes.now room fails) }
    {
        let mut kept = match Vec::with_capacity(alloc, room) {
            Ok(kept) => kept,
            Err(_) => return Err(NoMemory),
        };
        match kept.extend_from_slice(bytes) {
            Ok(()) => {}
            Err(_) => unreachable!(),
        }
        Ok(MemFile {
            bytes: kept,
            is_synced: false,
            room,
            fails,
            calls: 0,
            faults: 0,
        })
    }

    /// The bytes.
    pub fn bytes(&self) -> &[u8]
        ensures { result.now ≡ self.now.content.bytes }
    {
        self.bytes.as_slice()
    }

    /// Whether a sync succeeded, and no byte was written and no length changed since.
    pub fn is_synced(&self) -> bool
        ensures { result ≡ self.now.content.is_synced }
    {
        self.is_synced
    }

    // Counts a call. It goes on where it is not to fail.
    fn begin(&mut self) -> Result<(), FileError>
        ensures passes { OnOk result (IsToFail self.old → ⊥) }
        ensures ok { OnOk result (self.new ≡ with_call self.old) }
        ensures fails { OnErr result (IsToFail self.old) }
        ensures err { OnErr result (self.new ≡ with_failed_call self.old) }
        ensures cause { HasCause self.old.faults self.new.faults result }
    {
        self.calls = self.calls.saturating_add(1);
        if self.fails.has(self.calls) {
            return self.fail();
        }
        Ok(())
    }

    // Counts a call that cannot be done.
    fn fail(&mut self) -> Result<(), FileError>
        ensures result { result ≡ Err record {} }
        ensures counts { self.new ≡ record self.old { faults = next_count self.old.faults } }
    {
        self.faults = self.faults.saturating_add(1);
        Err(FileError)
    }

    // Cuts the bytes to `len`, or lengthens them with zero bytes.
    fn resize(&mut self, len: usize)
        requires { len ≤ self.old.room }
        ensures { self.new ≡ with_change (after_resize len) self.old }
    {
        match self.bytes.resize(len, 0) {
            Ok(()) => {}
            Err(_) => unreachable!(),
        }
        self.is_synced = false;
    }

    // Writes bytes from `at` on.
    fn overwrite(&mut self, at: usize, bytes: &[u8])
        requires { at + length bytes.now ≤ self.old.room }
        ensures { self.new ≡ with_change (after_write at bytes.now) self.old }
    {
        // What is asked of the room bounds the sum.
        let _room = self.room;
        let end = at + bytes.len();
        if self.bytes.len() < end {
            self.resize(end);
        }
        self.bytes[at..end].copy_from_slice(bytes);
        self.is_synced = false;
    }
}

impl RandomAccessFile for MemFile {
    ghost use Rattle.file_disk.specs.MemoryFiles.{as_file};

    ghost state = { as_file };

    fn len(&mut self) -> Result<u64, FileError>
        ensures step { MeasuresFile (as_file self.old) (as_file self.new) result }
        ensures counts { CountsFileCall (λ _. ⊥) self.old self.new result }
    {
        self.begin()?;
        Ok(self.bytes.len() as u64)
    }

    fn set_len(&mut self, len: u64) -> Result<(), FileError>
        ensures step { ChangesFile (after_resize len) (as_file self.old) (as_file self.new) result }
        ensures counts { CountsFileCall (IsPastRoom len 0) self.old self.new result }
    {
        self.begin()?;
        if len > self.room as u64 {
            return self.fail();
        }
        self.resize(len as usize);
        Ok(())
    }

    fn read_exact_at(&mut self, at: u64, buf: &mut [u8]) -> Result<(), FileError>
        ensures step { ReadsFile at buf.new (as_file self.old) (as_file self.new) result }
        ensures counts { CountsFileCall (IsPastEnd at (length buf.old)) self.old self.new result }
    {
        self.begin()?;
        let len = self.bytes.len();
        if at > len as u64 || buf.len() > len - at as usize {
            return self.fail();
        }
        let at = at as usize;
        let end = at + buf.len();
        buf.copy_from_slice(&self.bytes[at..end]);
        Ok(())
    }

    fn write_all_at(&mut self, at: u64, bytes: &[u8]) -> Result<(), FileError>
        ensures step { WritesFile at bytes.now (as_file self.old) (as_file self.new) result }
        ensures counts { CountsFileCall (IsPastRoom at (length bytes.now)) self.old self.new result }
    {
        self.begin()?;
        if at > self.room as u64 || bytes.len() > self.room - at as usize {
            return self.fail();
        }
        self.overwrite(at as usize, bytes);
        Ok(())
    }

    fn sync_all(&mut self) -> Result<(), FileError>
        ensures step { ChangesFile after_sync (as_file self.old) (as_file self.new) result }
        ensures counts { CountsFileCall (λ _. ⊥) self.old self.new result }
    {
        self.begin()?;
        self.is_synced = true;
        Ok(())
    }
}
