//! A file that is read and written at a place.
ghost use Rattle.std.specs.Prelude.{◌≡◌, ◌↔◌, IsErr};
ghost use Rattle.disk_core.specs.Causes.{HasCause};
ghost use Rattle.file_disk.specs.Files.{FileState, ReadsFile, WritesFile, ChangesFile, MeasuresFile, after_resize, after_sync};

use std::fs::File;
use std::io;
use std::marker::Model;
use std::os::unix::fs::FileExt;

/// A call of a file that did not succeed.
#[derive(Clone, Copy, Debug, PartialEq, Eq)]
pub struct FileError;

/// A file that is read and written at a place. A call fails only where the count of failed calls rose, and that count
/// stays where a call succeeds. A call that fails leaves the bytes as they were, but for a write.
pub trait RandomAccessFile {
    /// The content, where the file tells it, and how many calls failed, up to 2^64 - 1, where the count stands still.
    ghost state: { Self → FileState };

    /// How many bytes the file has.
    fn len(&mut self) -> Result<u64, FileError>
        ensures { MeasuresFile (state self.old) (state self.new) result };

    /// Cuts the file to `len` bytes, or lengthens it with zero bytes.
    fn set_len(&mut self, len: u64) -> Result<(), FileError>
        ensures { ChangesFile (after_resize len) (state self.old) (state self.new) result };

    /// Fills the buffer with the bytes from `at` on. It fails where the file ends before.
    fn read_exact_at(&mut self, at: u64, buf: &mut [u8]) -> Result<(), FileError>
        ensures { ReadsFile at buf.new (state self.old) (state self.new) result };

    /// Writes these bytes from `at` on. A write that fails may leave any bytes in a part of the range.
    fn write_all_at(&mut self, at: u64, bytes: &[u8]) -> Result<(), FileError>
        ensures { WritesFile at bytes.now (state self.old) (state self.new) result };

    /// Makes stable what was written.
    fn sync_all(&mut self) -> Result<(), FileError>
        ensures { ChangesFile after_sync (state self.old) (state self.new) result };
}

/// A file of the host. It tells no bytes: what its calls do to them is the host's.
#[derive(Drop)]
pub struct HostFile {
    file: File,
    faults: u64,
}

impl Model for HostFile {
    ghost use Rattle.std.specs.Prelude.{ℕ};

    ghost Value = { ℕ };

    ghost view = { λ f. f.faults };
}

impl HostFile {
    /// This file, with no failed call.
    pub fn of(file: File) -> HostFile
        ensures { result ≡ 0 }
    {
        HostFile { file, faults: 0 }
    }
}

impl RandomAccessFile for HostFile {
    ghost use Rattle.std.specs.Prelude.{None};

    ghost state = { λ f. record { told = None; faults = f } };

    fn len(&mut self) -> Result<u64, FileError> {
        let answer = measure(&self.file);
        count_fault(&mut self.faults, answer)
    }

    fn set_len(&mut self, len: u64) -> Result<(), FileError> {
        let answer = self.file.set_len(len);
        count_fault(&mut self.faults, answer)
    }

    fn read_exact_at(&mut self, at: u64, buf: &mut [u8]) -> Result<(), FileError> {
        let answer = self.file.read_exact_at(buf, at);
        count_fault(&mut self.faults, answer)
    }

    fn write_all_at(&mut self, at: u64, bytes: &[u8]) -> Result<(), FileError> {
        let answer = self.file.write_all_at(bytes, at);
        count_fault(&mut self.faults, answer)
    }

    fn sync_all(&mut self) -> Result<(), FileError> {
        let answer = self.file.sync_all();
        count_fault(&mut self.faults, answer)
    }
}

fn measure(file: &File) -> io::Result<u64> {
    Ok(file.metadata()?.len())
}

// What the host answered. Its failure is counted.
fn count_fault<T>(faults: &mut u64, done: io::Result<T>) -> Result<T, FileError>
    ensures fails { IsErr result ↔ IsErr done }
    ensures cause { HasCause faults.old faults.new result }
{
    match done {
        Ok(answer) => Ok(answer),
        Err(_) => {
            *faults = faults.saturating_add(1);
            Err(FileError)
        }
    }
}
