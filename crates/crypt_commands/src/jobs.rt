//! A command CRYPT that is run apart from the device that it was submitted to.
ghost use Rattle.std.specs.Prelude.{◌≡◌, ◌≢◌, ◌↔◌, IfErr, IfOk, IsTrue, is_some, length};
ghost use Rattle.std.specs.Option.{option_copied};
ghost use Rattle.crypt_commands.specs.Crypts.{sealing_key};
ghost use Rattle.crypt_commands.specs.Faults.{AnswersBytes};
ghost use Rattle.crypt_commands.specs.Jobs.{crypt_outcome};
ghost use Rattle.pad_steps.specs.declared.commands.Algorithm.TheVariants.{Cfb};

use crate::{CryptFault, CryptOut, run_crypt};
use key_attributes::KeyValue;
use pad_steps::{CryptRequest, Start};
use std::alloc::Global;
use std::marker::Model;

/// A command CRYPT to be run: the id of its request, the command, the value of its key, and that of the key under which
/// its start value is sealed.
#[derive(Drop)]
pub struct CryptJob {
    alloc: Global,
    id: u32,
    request: CryptRequest,
    key: KeyValue,
    start_key: Option<KeyValue>,
}

impl Model for CryptJob {
    ghost use Rattle.crypt_commands.specs.Jobs.{CryptInputs, MayRun};

    ghost Value = { CryptInputs };

    ghost view = { λ j. record { id = j.id; request = j.request; key = j.key; start_key = j.start_key } };

    ghost invariant = { λ j. MayRun (record { id = j.id; request = j.request; key = j.key; start_key = j.start_key }) };
}

impl CryptJob {
    /// The command of the request with this id, and its keys. It takes no memory.
    pub fn new(
        alloc: Global,
        id: u32,
        request: CryptRequest,
        key: KeyValue,
        start_key: Option<KeyValue>,
    ) -> CryptJob
        requires submitted { request.algorithm ≢ Cfb }
        requires sealed { is_some start_key ≡ is_some (sealing_key request.start) }
        ensures { result ≡ record { id = id; request = request; key = key; start_key = start_key } }
    {
        CryptJob {
            alloc,
            id,
            request,
            key,
            start_key,
        }
    }

    /// Runs the command. Where memory is wanting the job comes back, which is so where bytes are to be answered alone.
    pub fn run(self) -> Result<CryptDone, CryptJob>
        ensures done { IfOk result (λ done. done ≡ self) }
        ensures job { IfErr result (λ job. job ≡ self) }
        ensures memory { IfErr result (λ job. AnswersBytes self.request (length self.key)) }
    {
        match run_crypt(
            self.alloc,
            &self.request,
            &self.key,
            self.start_key.as_ref(),
        ) {
            Err(CryptFault::NoMemory) => Err(self),
            outcome => Ok(CryptDone { job: self, outcome }),
        }
    }
}

/// A command CRYPT that was run, with what came of it.
#[derive(Drop)]
pub struct CryptDone {
    job: CryptJob,
    outcome: Result<CryptOut, CryptFault>,
}

impl Model for CryptDone {
    ghost use Rattle.std.specs.Prelude.{◌≡◌};
    ghost use Rattle.crypt_commands.specs.Jobs.{CryptInputs, crypt_outcome};

    ghost Value = { CryptInputs };

    ghost view = { λ d. d.job };

    ghost invariant = { λ d. d.outcome ≡ crypt_outcome d.job };
}

impl CryptDone {
    /// What the command gave, or why it gave nothing. It is never want of memory.
    pub fn outcome(&self) -> &Result<CryptOut, CryptFault>
        ensures { result.now ≡ crypt_outcome self.now }
    {
        &self.outcome
    }

    /// Whether it was run for the request with this id, of this command, on these keys.
    pub fn is_of(
        &self,
        id: u32,
        request: &CryptRequest,
        key: &KeyValue,
        start_key: Option<&KeyValue>,
    ) -> bool
        ensures { IsTrue result ↔ (self.now ≡ record
            { id = id; request = request.now; key = key.now; start_key = option_copied start_key.entry }) }
    {
        self.job.id == id
            && is_same_request(&self.job.request, request)
            && self.job.key.bytes() == key.bytes()
            && is_same_key(self.job.start_key.as_ref(), start_key)
    }
}

// Whether two commands are equal.
fn is_same_request(left: &CryptRequest, right: &CryptRequest) -> bool
    ensures { IsTrue result ↔ (left.now ≡ right.now) }
{
    left.algorithm == right.algorithm
        && left.direction == right.direction
        && left.key.text() == right.key.text()
        && is_same_start(&left.start, &right.start)
        && left.pad == right.pad
        && left.body.items() == right.body.items()
}

// Whether two start values are equal.
fn is_same_start(left: &Start, right: &Start) -> bool
    ensures { IsTrue result ↔ (left.now ≡ right.now) }
{
    match (left, right) {
        (Start::Zero, Start::Zero) => true,
        (Start::Clear(left), Start::Clear(right)) => left == right,
        (Start::Sealed(left_name, left), Start::Sealed(right_name, right)) => {
            left_name.text() == right_name.text() && left == right
        }
        _ => false,
    }
}

// Whether both keys are there and equal, or neither is there.
fn is_same_key(left: Option<&KeyValue>, right: Option<&KeyValue>) -> bool
    ensures { IsTrue result ↔ (option_copied left.entry ≡ option_copied right.entry) }
{
    match (left, right) {
        (Some(left), Some(right)) => left.bytes() == right.bytes(),
        (None, None) => true,
        _ => false,
    }
}
