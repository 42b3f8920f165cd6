//! Commands that are run apart from the pad.
use super::{Case, Device, KEY, SEALED, encryption, listed, step_of};
use crypt_commands::{CryptDone, CryptJob};
use key_attributes::KeyValue;
use pad_steps::Outs;
use pad_words::Session;
use std::alloc::Global;
use std::process::Abort;
use std::test::Fail;

/// The bytes of the command in work.
const CLEAR: &[u8] = b"Now is t";

/// Steps before a command in work that encrypts under the key A. Its id is 2.
const CASES: [Case; 6] = [
    Case::Boot,
    Case::Open,
    Case::Import(b"A"),
    Case::Begin,
    Case::Finish,
    Case::Encrypt(CLEAR),
];

// Takes a step of the first session.
fn take(alloc: Global, device: &mut Device, case: Case) -> Result<(), Fail> {
    let session = Session::new(1).ok_or("1 to 16")?;
    let step = step_of(alloc, session, case)?;
    device.step(&step, &mut Outs::new(alloc)?)?;
    Ok(())
}

// A pad with that command in work.
fn encrypting(alloc: Global) -> Result<Device, Fail> {
    let mut device = Device::off(alloc)?;
    for case in CASES {
        take(alloc, &mut device, case)?;
    }
    take(alloc, &mut device, Case::Begin)?;
    Ok(device)
}

// The command with this id that encrypts these bytes, run under this key.
fn run(alloc: Global, id: u32, clear: &[u8], key: &[u8]) -> Result<CryptDone, Fail> {
    let request = encryption(alloc, b"A", clear)?;
    let key = KeyValue::new(key).ok_or("a key")?;
    match CryptJob::new(alloc, id, request, key, None).run() {
        Ok(done) => Ok(done),
        Err(_) => Err("memory")?,
    }
}

// Whether Finish with this command tells what the command in work gives, both times.
fn is_finished(alloc: Global, mut device: Device, done: &CryptDone) -> Result<bool, Fail> {
    let mut first = Outs::new(alloc)?;
    let mut second = Outs::new(alloc)?;
    let (answer, again) = device.step_done(done, &mut first, &mut second)?;
    Ok(
        listed(&first, &answer.word) == Some((8, SEALED))
            && listed(&second, &again.word) == Some((8, SEALED)),
    )
}

// Compares what Finish tells with commands of another id, of other bytes, and on another key.
fn compare_others(rt: &impl Abort, alloc: Global) -> Result<(), Fail> {
    let other_id = run(alloc, 7, CLEAR, KEY)?;
    let other_bytes = run(alloc, 2, b"Now is x", KEY)?;
    let other_key = run(alloc, 2, CLEAR, &[0x5A; 8])?;
    assert!(rt; is_finished(alloc, encrypting(alloc)?, &other_id)?);
    assert!(rt; is_finished(alloc, encrypting(alloc)?, &other_bytes)?);
    assert!(rt; is_finished(alloc, encrypting(alloc)?, &other_key)?);
    Ok(())
}

#[test]
fn a_command_that_was_run_is_told(rt: HostRuntime) -> Result<(), Fail> {
    let device = encrypting(rt.alloc())?;
    let job = device.job()?.ok_or("a job")?;
    let Ok(done) = job.run() else {
        return Err("memory")?;
    };
    assert!(rt; is_finished(rt.alloc(), device, &done)?);
    Ok(())
}

#[test]
fn another_command_that_was_run_is_not_told(rt: HostRuntime) -> Result<(), Fail> {
    compare_others(&rt, rt.alloc())
}

#[test]
fn a_command_in_work_is_a_job(rt: HostRuntime) -> Result<(), Fail> {
    let mut device = Device::off(rt.alloc())?;
    for case in CASES {
        take(rt.alloc(), &mut device, case)?;
        assert!(rt; device.job()?.is_none());
    }
    take(rt.alloc(), &mut device, Case::Begin)?;
    assert!(rt; device.job()?.is_some());
    take(rt.alloc(), &mut device, Case::Finish)?;
    assert!(rt; device.job()?.is_none());
    Ok(())
}
