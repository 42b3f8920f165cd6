//! A disk in a file of the host, and one in a file in memory.

use super::*;
use disk_core::{ArmDisk, Calls, DISK_BYTES, Disk, DiskError, Keep, PowerDisk, Strike};
use std::alloc::Global;
use std::fs::{OpenOptions, remove_file};
use std::process::Abort;
use std::test::Fail;

// Two writes, each synced, up to the first call that does not succeed.
fn write_twice<D: Disk>(disk: &mut D) -> Result<(), DiskError> {
    disk.write_at(0, &[1, 2])?;
    disk.sync()?;
    disk.write_at(1, &[3, 4])?;
    disk.sync()
}

fn first_bytes<D: Disk>(disk: &mut D) -> Result<[u8; 4], DiskError> {
    let mut bytes = [0; 4];
    disk.read(0, &mut bytes)?;
    Ok(bytes)
}

#[test]
fn disk_in_a_file(rt: HostRuntime) -> Result<(), Fail> {
    // One that an earlier run left, if it did.
    let _left = remove_file(&rt, "disk");
    let mut disk = FileDisk::on_path(&rt, "disk")?;
    assert_eq!(rt; first_bytes(&mut disk), Ok([0; 4]));
    assert_eq!(rt; write_twice(&mut disk), Ok(()));
    disk.write_at(12350, &[7, 8])?;

    // The write that is struck does not land, and those before it stay.
    disk.arm(2, Strike::Cut(Keep::New));
    disk.write_at(3, &[5])?;
    assert_eq!(rt; disk.write_at(0, &[6]), Err(DiskError::Off));
    assert_eq!(rt; disk.sync(), Err(DiskError::Off));
    disk.on();
    assert_eq!(rt; first_bytes(&mut disk), Ok([1, 3, 4, 5]));

    let mut again = FileDisk::on_path(&rt, "disk")?;
    let mut last = [0; 3];
    again.read(12349, &mut last)?;
    assert_eq!(rt; last, [0, 7, 8]);

    // A file that was cut short under the disk, and is lengthened when it is opened.
    let mut options = OpenOptions::new();
    options.write(true).open(&rt, "disk")?.set_len(2)?;
    assert_eq!(rt; first_bytes(&mut again), Err(DiskError::Failed));
    let mut longer = FileDisk::on_path(&rt, "disk")?;
    assert_eq!(rt; first_bytes(&mut longer), Ok([1, 3, 0, 0]));

    assert_eq!(rt;
        FileDisk::on_path(&rt, "no/disk").err(),
        Some(OpenFault::Failed)
    );
    remove_file(&rt, "disk")?;
    Ok(())
}

/// How many bytes the files in memory have, each of them 9.
const LENGTHS: [usize; 4] = [0, 2, DISK_BYTES, 20_000];

// A file of `length` bytes, of which this call fails.
fn file_of(alloc: Global, length: usize, call: u32) -> Result<MemFile, Fail> {
    let mut bytes = Vec::new(alloc);
    bytes.resize(length, 9)?;
    let fails = Calls::of(&[call]).ok_or("one call")?;
    let room = bytes.len().max(DISK_BYTES);
    Ok(MemFile::of(alloc, bytes.as_slice(), room, fails)?)
}

// How many calls it takes to open a file of `length` bytes: a shorter one is lengthened.
fn opening_calls(length: usize) -> u32 {
    if length < DISK_BYTES { 2 } else { 1 }
}

// The bytes behind the front of a file that was `length` bytes long are as they are to be.
fn is_tail_kept(bytes: &[u8], length: usize) -> bool {
    let mut tail = bytes.iter().enumerate().skip(3);
    tail.all(|(i, &byte)| byte == if i < length { 9 } else { 0 })
}

// A call of the opening fails: nothing is changed, and there is no disk.
fn opening_fails(rt: &impl Abort, alloc: Global, length: usize, call: u32) -> Result<(), Fail> {
    let mut file = file_of(alloc, length, call)?;
    assert_eq!(rt;
        lengthen(&mut file),
        Err(FileError),
        "{length} bytes, call {call}"
    );
    assert_eq!(rt; file.bytes().len(), length, "{length} bytes, call {call}");
    assert!(rt;
        file.bytes().iter().all(|&byte| byte == 9),
        "{length} bytes, call {call}"
    );
    let refused = FileDisk::over(file_of(alloc, length, call)?);
    assert_eq!(rt;
        refused.err(),
        Some(OpenFault::Failed),
        "{length} bytes, call {call}"
    );
    Ok(())
}

// The call of this number behind the opening fails, if there is one: the others do what they are to do.
fn disk_fails(rt: &impl Abort, alloc: Global, length: usize, call: u32) -> Result<(), Fail> {
    let all = opening_calls(length).saturating_add(call);
    let mut disk = FileDisk::over(file_of(alloc, length, all)?)?;
    let answer = |number: u32| {
        if number == call {
            Err(DiskError::Failed)
        } else {
            Ok(())
        }
    };
    assert_eq!(rt;
        disk.write_at(1, &[7, 8]),
        answer(1),
        "{length} bytes, call {call}"
    );
    assert_eq!(rt; disk.sync(), answer(2), "{length} bytes, call {call}");
    let mut front = [0; 3];
    assert_eq!(rt;
        disk.read(0, &mut front),
        answer(3),
        "{length} bytes, call {call}"
    );
    let first = if length == 0 { 0 } else { 9 };
    let second = if length < 2 { 0 } else { 9 };
    let third = if length < 3 { 0 } else { 9 };
    let stands = match call {
        1 => [first, second, third],
        _ => [first, 7, 8],
    };
    if call != 3 {
        assert_eq!(rt; front, stands, "{length} bytes, call {call}");
    }
    let file = disk.file();
    assert_eq!(rt; file.is_synced(), call != 2, "{length} bytes, call {call}");
    assert_eq!(rt;
        file.bytes().len(),
        length.max(DISK_BYTES),
        "{length} bytes, call {call}"
    );
    assert!(rt;
        file.bytes().starts_with(&stands),
        "{length} bytes, call {call}"
    );
    assert!(rt;
        is_tail_kept(file.bytes(), length),
        "{length} bytes, call {call}"
    );
    Ok(())
}

// Each call fails in turn, over files of each length, and then none does.
#[test]
fn each_call_of_a_file_fails(rt: HostRuntime) -> Result<(), Fail> {
    for length in LENGTHS {
        for call in 1..=opening_calls(length) {
            opening_fails(&rt, rt.alloc(), length, call)?;
        }
        for call in 1..=4u32 {
            disk_fails(&rt, rt.alloc(), length, call)?;
        }
    }
    Ok(())
}

// A write behind the end lengthens the file, and one past its room fails.
#[test]
fn room_of_a_file(rt: HostRuntime) -> Result<(), Fail> {
    let fails = Calls::of(&[]).ok_or("no calls")?;
    let mut file = MemFile::of(rt.alloc(), &[1, 2], 5, fails)?;
    assert_eq!(rt; file.write_all_at(3, &[4]), Ok(()));
    assert_eq!(rt; file.bytes(), [1, 2, 0, 4].as_slice());
    assert_eq!(rt; file.write_all_at(4, &[5, 6]), Err(FileError));
    assert_eq!(rt; file.set_len(6), Err(FileError));
    assert_eq!(rt; file.read_exact_at(2, &mut [0; 3]), Err(FileError));
    assert_eq!(rt; file.set_len(1), Ok(()));
    assert_eq!(rt; file.bytes(), [1].as_slice());
    assert_eq!(rt; file.len(), Ok(1));
    Ok(())
}
