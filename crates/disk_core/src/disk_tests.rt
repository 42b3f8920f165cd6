//! Disks that are struck.
ghost use Rattle.std.specs.Prelude.{◌≤◌};

use super::*;

// Two writes, each synced, up to the first call that does not succeed.
fn write_twice<D: Disk>(disk: &mut D) -> Result<(), DiskError> {
    disk.write_at(0, &[1, 2])?;
    disk.sync()?;
    disk.write_at(1, &[3, 4])?;
    disk.sync()
}

fn first_bytes<D: Disk>(disk: &mut D) -> Result<[u8; 4], DiskError> {
    let mut bytes = [0; 4];
    disk.read(0, &mut bytes)?;
    Ok(bytes)
}

// What is read after the power was cut in this call and came back.
fn bytes_after_cut(call: u32, keep: Keep) -> Result<[u8; 4], DiskError>
    requires { 1 ≤ call }
{
    let mut disk = MemDisk::of([9; DISK_BYTES]);
    disk.arm(call, Strike::Cut(keep));
    if write_twice(&mut disk) != Err(DiskError::Off) || disk.sync() != Err(DiskError::Off) {
        return Err(DiskError::Failed);
    }
    disk.on();
    first_bytes(&mut disk)
}

#[test]
fn cut_in_each_call(rt: HostRuntime) {
    let cuts: [([u8; 4], [u8; 4], [u8; 4]); 4] = [
        ([9, 9, 9, 9], [1, 2, 9, 9], [0x77, 0x77, 9, 9]),
        ([9, 9, 9, 9], [1, 2, 9, 9], [0x77, 0x77, 9, 9]),
        ([1, 2, 9, 9], [1, 3, 4, 9], [1, 0x77, 0x77, 9]),
        ([1, 2, 9, 9], [1, 3, 4, 9], [1, 0x77, 0x77, 9]),
    ];
    for call in 1..5u32 {
        let (old, new, fill) = cuts[call as usize - 1];
        assert_eq!(rt; bytes_after_cut(call, Keep::Old), Ok(old), "call {call}");
        assert_eq!(rt; bytes_after_cut(call, Keep::New), Ok(new), "call {call}");
        assert_eq!(rt;
            bytes_after_cut(call, Keep::Fill(0x77)),
            Ok(fill),
            "call {call}"
        );
    }
}

// What is read after this call failed, and again after the power went and came back.
fn bytes_after_fault(call: u32) -> Result<([u8; 4], [u8; 4]), DiskError>
    requires { 1 ≤ call }
{
    let mut disk = MemDisk::of([9; DISK_BYTES]);
    disk.arm(call, Strike::Fail);
    if write_twice(&mut disk) != Err(DiskError::Failed) {
        return Err(DiskError::Off);
    }
    let before = first_bytes(&mut disk)?;
    disk.off();
    disk.on();
    Ok((before, first_bytes(&mut disk)?))
}

#[test]
fn fault_in_each_call(rt: HostRuntime) {
    let faults: [([u8; 4], [u8; 4]); 4] = [
        ([9, 9, 9, 9], [9, 9, 9, 9]),
        ([1, 2, 9, 9], [9, 9, 9, 9]),
        ([1, 2, 9, 9], [1, 2, 9, 9]),
        ([1, 3, 4, 9], [1, 2, 9, 9]),
    ];
    for call in 1..5u32 {
        let (before, after) = faults[call as usize - 1];
        assert_eq!(rt; bytes_after_fault(call), Ok((before, after)), "call {call}");
    }
}

#[test]
fn later_arming_replaces(rt: HostRuntime) {
    let mut disk = MemDisk::new();
    disk.arm(1, Strike::Fail);
    disk.arm(2, Strike::Fail);
    assert_eq!(rt; first_bytes(&mut disk), Ok([0; 4]));
    assert_eq!(rt; first_bytes(&mut disk), Err(DiskError::Failed));
    assert_eq!(rt; first_bytes(&mut disk), Ok([0; 4]));
}

#[test]
fn calls_while_off_do_not_count(rt: HostRuntime) {
    let mut disk = MemDisk::new();
    disk.arm(2, Strike::Fail);
    disk.off();
    assert_eq!(rt; disk.sync(), Err(DiskError::Off));
    assert_eq!(rt; disk.sync(), Err(DiskError::Off));
    disk.on();
    assert_eq!(rt; disk.sync(), Ok(()));
    assert_eq!(rt; disk.sync(), Err(DiskError::Failed));
}

// A call of a disk.
#[derive(Clone, Copy)]
enum Step {
    Read,
    Write(u8),
    Sync,
    Off,
    On,
    // Strikes the second call from here on.
    Arm(Strike),
}

// Does this to the first byte, and answers what a read gave.
fn after_step<D: ArmDisk>(disk: &mut D, step: Step) -> Result<u8, DiskError> {
    let mut byte = [0];
    match step {
        Step::Read => disk.read(0, &mut byte)?,
        Step::Write(new) => disk.write_at(0, &[new])?,
        Step::Sync => disk.sync()?,
        Step::Off => disk.off(),
        Step::On => disk.on(),
        Step::Arm(strike) => disk.arm(2, strike),
    }
    Ok(byte[0])
}

#[test]
fn calls_of_a_list_fail(rt: HostRuntime) {
    let fails = Calls::of(&[4, 7, 9]).expect(&rt, "at most 32 numbers");
    let mut disk = FlakyDisk::new(MemDisk::new(), fails);
    let steps: [(Step, Result<u8, DiskError>); 22] = [
        (Step::Write(1), Ok(0)),
        (Step::Sync, Ok(0)),
        (Step::Read, Ok(1)),
        // The fourth call fails, and the byte before stays.
        (Step::Write(2), Err(DiskError::Failed)),
        (Step::Read, Ok(1)),
        (Step::Write(3), Ok(0)),
        // The seventh fails, so that the power takes the last write with it.
        (Step::Sync, Err(DiskError::Failed)),
        (Step::Read, Ok(3)),
        (Step::Off, Ok(0)),
        // These find the disk off, and do not count.
        (Step::Read, Err(DiskError::Off)),
        (Step::Write(4), Err(DiskError::Off)),
        (Step::On, Ok(0)),
        (Step::Read, Err(DiskError::Failed)),
        (Step::Read, Ok(1)),
        // What is armed strikes the disk inside.
        (Step::Arm(Strike::Fail), Ok(0)),
        (Step::Sync, Ok(0)),
        (Step::Sync, Err(DiskError::Failed)),
        (Step::Arm(Strike::Cut(Keep::New)), Ok(0)),
        (Step::Sync, Ok(0)),
        (Step::Write(5), Err(DiskError::Off)),
        (Step::On, Ok(0)),
        (Step::Read, Ok(5)),
    ];
    for (at, (step, want)) in steps.into_iter().enumerate() {
        assert_eq!(rt; after_step(&mut disk, step), want, "step {}", at + 1);
    }
}
