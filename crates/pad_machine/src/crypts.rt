// CRYPT: what a command comes to.
ghost use Rattle.std.specs.Prelude.{◌≡◌, ◌⊎◌, Err, IfErr, IfOk, IsOk, None, Ok, false, is_some, length};
ghost use Rattle.std.specs.Option.{option_copied};
ghost use Rattle.crypt_commands.specs.Crypts.{crypt_out, sealing_key, start_block};
ghost use Rattle.crypt_commands.specs.Faults.{IsFault, crypt_fault};
ghost use Rattle.des_core.specs.TripleDes.{tdea_back_bytes, tdea_bytes};
ghost use Rattle.flat_machine.specs.Crypts.{crypt_use, crypt_work};
ghost use Rattle.flat_machine.specs.RequestSteps.{is_cfb};
ghost use Rattle.flat_machine.specs.Settings.{triple_des};
ghost use Rattle.pad_machine.specs.Jobs.{crypt_job};

use crate::refusals::{denied, refused};
use crypt_commands::{CryptDone, CryptFault, CryptJob, CryptOut, run_crypt};
use flat_machine::types::Work;
use key_attributes::{KeyValue, Use};
use key_table::StoredKeys;
use pad_steps::{Algorithm, Answer, CryptRequest, Refusal, Start};
use pad_words::{NoMemory, Octets};
use std::alloc::Global;

/// What CRYPT comes to. `done` is a command that was run before: its outcome is used where it is this one, on the keys that
/// are kept now.
pub fn crypt_work(
    alloc: Global,
    keys: &StoredKeys,
    id: u32,
    request: &CryptRequest,
    done: Option<&CryptDone>,
) -> Result<Work, NoMemory>
    requires { is_cfb request.now.algorithm ≡ false }
    ensures work { IfOk result (λ work. work ≡ crypt_work triple_des keys.now.rows request.now) }
{
    let key = match keys.permit(&request.key, crypt_use(request.algorithm)) {
        Ok(key) => key,
        Err(why) => return Ok(denied(why, &request.key)),
    };
    let start_key = match &request.start {
        Start::Zero | Start::Clear(_) => None,
        Start::Sealed(name, _) => match keys.permit(name, Use::SvEncKey) {
            Ok(key) => Some(key),
            Err(why) => return Ok(denied(why, name)),
        },
    };
    match outcome_of(alloc, id, request, key, start_key, done) {
        Ok(CryptOut::Bytes(bytes)) => Ok(Work::Answer(Answer::Crypt(bytes))),
        Ok(CryptOut::Mac(code)) => Ok(Work::Answer(Answer::Mac(code))),
        Err(CryptFault::InvalidKeyLength) => Ok(refused(Refusal::InvalidKeyLength)),
        Err(CryptFault::LengthError) => Ok(refused(Refusal::LengthError)),
        Err(CryptFault::NoMemory) => Err(NoMemory),
    }
}

/// The command CRYPT of the request with this id as a job, where the uses of its keys are permitted.
pub fn crypt_job(
    alloc: Global,
    keys: &StoredKeys,
    id: u32,
    request: &CryptRequest,
) -> Result<Option<CryptJob>, NoMemory>
    requires { is_cfb request.now.algorithm ≡ false }
    ensures job { IfOk result (λ job. job ≡ crypt_job keys.now.rows id request.now) }
    ensures memory { crypt_job keys.now.rows id request.now ≡ None → IsOk result }
{
    let Ok(key) = keys.permit(&request.key, crypt_use(request.algorithm)) else {
        return Ok(None);
    };
    let start_key = match &request.start {
        Start::Zero | Start::Clear(_) => None,
        Start::Sealed(name, _) => match keys.permit(name, Use::SvEncKey) {
            Ok(key) => Some(key.copy()),
            Err(_) => return Ok(None),
        },
    };
    let request = request.copy(alloc)?;
    Ok(Some(CryptJob::new(alloc, id, request, key.copy(), start_key)))
}

// What the command gives: what it gave when it was run before, where it is the command that was.
fn outcome_of(
    alloc: Global,
    id: u32,
    request: &CryptRequest,
    key: &KeyValue,
    start_key: Option<&KeyValue>,
    done: Option<&CryptDone>,
) -> Result<CryptOut, CryptFault>
    requires submitted { is_cfb request.now.algorithm ≡ false }
    requires sealed { is_some start_key ≡ is_some (sealing_key request.now.start) }
    ensures fault { IsFault (crypt_fault request.now (length key.now)) result }
    ensures out { IfOk result (λ out. out ≡ crypt_out tdea_bytes tdea_back_bytes request.now request.now.algorithm key.now
        (start_block tdea_bytes tdea_back_bytes request.now.start (option_copied start_key.entry))) }
{
    match done {
        Some(done) if done.is_of(id, request, key, start_key) => copy_outcome(
            alloc,
            done.outcome(),
        ),
        _ => run_crypt(alloc, request, key, start_key),
    }
}

// What a command gave, once more.
fn copy_outcome(
    alloc: Global,
    outcome: &Result<CryptOut, CryptFault>,
) -> Result<CryptOut, CryptFault>
    ensures out { IfOk result (λ out. outcome.now ≡ Ok out) }
    ensures fault { IfErr result (λ fault. (fault ≡ CryptFault.NoMemory) ⊎ (outcome.now ≡ Err fault)) }
{
    match outcome {
        Ok(CryptOut::Mac(code)) => Ok(CryptOut::Mac(*code)),
        Ok(CryptOut::Bytes(bytes)) => match Octets::copy(alloc, bytes.items()) {
            Ok(copy) => Ok(CryptOut::Bytes(copy)),
            Err(NoMemory) => Err(CryptFault::NoMemory),
        },
        Err(fault) => Err(*fault),
    }
}

// The use that the key of an algorithm needs.
fn crypt_use(algorithm: Algorithm) -> Use
    ensures { result ≡ crypt_use algorithm }
{
    match algorithm {
        Algorithm::Mac | Algorithm::Retail => Use::Macing,
        Algorithm::Ecb | Algorithm::Cbc | Algorithm::Cfb => Use::Crypt,
    }
}
