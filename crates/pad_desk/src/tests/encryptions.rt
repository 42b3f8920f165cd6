//! Long messages that are encrypted while others call.
ghost use Rattle.std.specs.Prelude.{IfOk};
ghost use Rattle.turnstile.specs.Turns.{IsPassOf};

use super::callers::{MemoryDesk, MemoryPass, fresh_desk, take, work};
use super::visitors::import;
use crate::StepOut;
use pad_steps::{Algorithm, Answer, Command, CryptRequest, Out, Refusal, Reply, Start, Step};
use pad_words::{Direction, KeyName, Octets, Session};
use std::alloc::Global;
use std::sync::Wait;
use std::test::Fail;
use turnstile::Entry;

/// The name of the key, whose value is 16 times 5A.
const NAME: &[u8] = b"K";

/// A block of the message, which has 128 of them.
const BLOCK: &[u8] = b"Now is t";

/// What that block is under the key, by openssl's des-ede-ecb.
const SEALED: &[u8] = &[0xAF, 0xC3, 0x3D, 0x77, 0xDA, 0x68, 0xBF, 0x35];

// The message: 1,024 bytes.
fn message(alloc: Global) -> Option<Octets> {
    let mut bytes = Vec::new(alloc);
    for _ in 0..128 {
        if bytes.extend_from_slice(BLOCK).is_err() {
            return None;
        }
    }
    Some(Octets::of(bytes))
}

/// The command that encrypts the message.
pub fn encryption(alloc: Global) -> Option<Command> {
    Some(Command::Crypt(CryptRequest {
        algorithm: Algorithm::Ecb,
        direction: Direction::Encrypt,
        key: KeyName::read(NAME)?,
        start: Start::Zero,
        pad: 0,
        body: message(alloc)?,
    }))
}

/// A desk whose session 9 is open, and which has the key.
pub fn encrypting_desk<R: Wait>(rt: &R, alloc: Global) -> Result<(MemoryDesk, MemoryPass), Fail>
    ensures { IfOk result (λ made. IsPassOf made.0.turn made.1) }
{
    let session = Session::new(9).ok_or("1 to 16")?;
    let key = import(alloc, NAME).ok_or("a key")?;
    let Ok((desk, mut pass)) = fresh_desk(alloc) else {
        return Err("a desk")?;
    };
    take(rt, &desk, &mut pass, Step::Boot)?;
    take(rt, &desk, &mut pass, Step::Open(session))?;
    take(rt, &desk, &mut pass, Step::Submit(session, 0, key))?;
    work(rt, &desk, &mut pass)?;
    work(rt, &desk, &mut pass)?;
    Ok((desk, pass))
}

/// A command is in work and becomes a job, its request is canceled, and Finish comes with what was run.
pub fn finish_after_cancel<R: Wait>(rt: &R, alloc: Global) -> Result<StepOut, Fail> {
    let session = Session::new(9).ok_or("1 to 16")?;
    let command = encryption(alloc).ok_or("a command")?;
    let (desk, mut pass) = encrypting_desk(rt, alloc)?;
    take(rt, &desk, &mut pass, Step::Submit(session, 0, command))?;
    work(rt, &desk, &mut pass)?;
    let Ok(Some(job)) = desk.turn.part(rt, &mut pass) else {
        return Err("a job")?;
    };
    let Ok(done) = job.run() else {
        return Err("memory")?;
    };
    take(rt, &desk, &mut pass, Step::Cancel(session, 2))?;
    match desk.turn.call_with(rt, &mut pass, Step::Finish, done) {
        Ok(given) => Ok(given.outcome),
        Err(_) => Err("memory")?,
    }
}

// Whether the bytes are the message encrypted.
fn is_sealed(bytes: &[u8]) -> bool {
    bytes.len() == 1024 && bytes.chunks(8).all(|block| block == SEALED)
}

/// Whether so many requests ended with the message encrypted or were canceled.
pub fn are_sealed(entries: &[Entry<Step, StepOut>], count: u32) -> bool {
    let mut ended = 0u32;
    for entry in entries {
        for out in entry.outcome.outs.items() {
            match out {
                Out::Ended(_, _, Reply::Ok(Answer::Crypt(bytes))) => {
                    if !is_sealed(bytes.items()) {
                        return false;
                    }
                    ended = ended.saturating_add(1);
                }
                Out::Ended(_, _, Reply::No(Refusal::Canceled)) => ended = ended.saturating_add(1),
                _ => {}
            }
        }
    }
    ended == count
}
