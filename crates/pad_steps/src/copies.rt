//! Copies of commands, of steps, of refusals and of events. Each takes its memory first, and is what was copied again.
ghost use Rattle.std.specs.Prelude.{◌≡◌, false, IfOk, IsOk};
ghost use Rattle.pad_steps.specs.Formed.{is_extra};

use crate::answers::{Answer, Event, Refusal};
use crate::commands::{
    BlockRequest, CheckRequest, Command, CryptRequest, ExtraRequest, ImportRequest, ImportSource,
    PinRequest, Start,
};
use crate::steps::{Question, Step};
use pad_words::{KeyName, NoMemory, Octets};
use std::alloc::Global;

fn copy_name(name: &Option<KeyName>) -> Option<KeyName>
    ensures { result ≡ name.now }
{
    match name {
        Some(name) => Some(name.copy()),
        None => None,
    }
}

impl BlockRequest {
    /// The request again, without memory.
    pub fn copy(&self) -> BlockRequest
        ensures { result ≡ self.now }
    {
        BlockRequest {
            form: self.form,
            key: self.key.copy(),
            second: copy_name(&self.second),
            xor: self.xor,
            customer: self.customer.copy(),
            pad: self.pad,
        }
    }
}

impl CheckRequest {
    fn copy(&self) -> CheckRequest
        ensures { result ≡ self.now }
    {
        CheckRequest {
            key: self.key.copy(),
            validation: self.validation.copy(),
            pad: self.pad,
            offset: self.offset.copy(),
            count: self.count,
            no_zero: self.no_zero,
            table: self.table.copy(),
        }
    }
}

impl ExtraRequest {
    fn copy(&self, alloc: Global) -> Result<ExtraRequest, NoMemory>
        ensures { IfOk result (λ request. request ≡ self.now) }
    {
        Ok(ExtraRequest {
            kind: self.kind,
            key: self.key.copy(),
            body: Octets::copy(alloc, self.body.items())?,
        })
    }
}

impl PinRequest {
    /// The request again. It fails for want of memory alone, and takes none for a block and a check.
    pub fn copy(&self, alloc: Global) -> Result<PinRequest, NoMemory>
        ensures copied { IfOk result (λ request. request ≡ self.now) }
        ensures memory { is_extra self.now ≡ false → IsOk result }
    {
        match self {
            PinRequest::Block(request) => Ok(PinRequest::Block(request.copy())),
            PinRequest::Check(request) => Ok(PinRequest::Check(request.copy())),
            PinRequest::Extra(request) => Ok(PinRequest::Extra(request.copy(alloc)?)),
        }
    }
}

impl Start {
    fn copy(&self) -> Start
        ensures { result ≡ self.now }
    {
        match self {
            Start::Zero => Start::Zero,
            Start::Clear(value) => Start::Clear(*value),
            Start::Sealed(name, value) => Start::Sealed(name.copy(), *value),
        }
    }
}

impl CryptRequest {
    /// The request again. It fails for want of memory alone.
    pub fn copy(&self, alloc: Global) -> Result<CryptRequest, NoMemory>
        ensures { IfOk result (λ request. request ≡ self.now) }
    {
        Ok(CryptRequest {
            algorithm: self.algorithm,
            direction: self.direction,
            key: self.key.copy(),
            start: self.start.copy(),
            pad: self.pad,
            body: Octets::copy(alloc, self.body.items())?,
        })
    }
}

impl ImportSource {
    fn copy(&self, alloc: Global) -> Result<ImportSource, NoMemory>
        ensures { IfOk result (λ source. source ≡ self.now) }
    {
        match self {
            ImportSource::Clear(value) => Ok(ImportSource::Clear(Octets::copy(
                alloc,
                value.items(),
            )?)),
            ImportSource::Sealed(name, value) => {
                let value = Octets::copy(alloc, value.items())?;
                Ok(ImportSource::Sealed(name.copy(), value))
            }
            ImportSource::Part => Ok(ImportSource::Part),
        }
    }
}

impl ImportRequest {
    fn copy(&self, alloc: Global) -> Result<ImportRequest, NoMemory>
        ensures { IfOk result (λ request. request ≡ self.now) }
    {
        Ok(ImportRequest {
            name: self.name.copy(),
            source: self.source.copy(alloc)?,
            uses: self.uses,
            verify: self.verify,
        })
    }
}

impl Command {
    /// The command again. It fails for want of memory alone.
    pub fn copy(&self, alloc: Global) -> Result<Command, NoMemory>
        ensures { IfOk result (λ command. command ≡ self.now) }
    {
        match self {
            Command::GetPin(rules) => Ok(Command::GetPin(*rules)),
            Command::GetData(rules) => Ok(Command::GetData(*rules)),
            Command::SecureKeyEntry(rules) => Ok(Command::SecureKeyEntry(*rules)),
            Command::MaintainPin(on) => Ok(Command::MaintainPin(*on)),
            Command::Pin(request) => Ok(Command::Pin(request.copy(alloc)?)),
            Command::Crypt(request) => Ok(Command::Crypt(request.copy(alloc)?)),
            Command::ImportKey(request) => Ok(Command::ImportKey(request.copy(alloc)?)),
            Command::DeleteKey(name) => Ok(Command::DeleteKey(name.copy())),
            Command::Init => Ok(Command::Init),
            Command::Reset => Ok(Command::Reset),
            Command::RsaImport => Ok(Command::RsaImport),
        }
    }
}

impl Question {
    // The question again, without memory.
    fn copy(&self) -> Question
        ensures { result ≡ self.now }
    {
        match self {
            Question::Status => Question::Status,
            Question::Key(name) => Question::Key(name.copy()),
            Question::Names => Question::Names,
            Question::Reply(id) => Question::Reply(*id),
        }
    }
}

impl Step {
    /// The step again. It fails for want of memory alone.
    pub fn copy(&self, alloc: Global) -> Result<Step, NoMemory>
        ensures { IfOk result (λ step. step ≡ self.now) }
    {
        match self {
            Step::Open(session) => Ok(Step::Open(*session)),
            Step::Close(session) => Ok(Step::Close(*session)),
            Step::Listen(session, classes) => Ok(Step::Listen(*session, *classes)),
            Step::Lock(session) => Ok(Step::Lock(*session)),
            Step::Unlock(session) => Ok(Step::Unlock(*session)),
            Step::Submit(session, limit, command) => {
                Ok(Step::Submit(*session, *limit, command.copy(alloc)?))
            }
            Step::Cancel(session, id) => Ok(Step::Cancel(*session, *id)),
            Step::Begin => Ok(Step::Begin),
            Step::Finish => Ok(Step::Finish),
            Step::Press(key) => Ok(Step::Press(*key)),
            Step::Tick(ticks) => Ok(Step::Tick(*ticks)),
            Step::Ask(session, question) => Ok(Step::Ask(*session, question.copy())),
            Step::Off => Ok(Step::Off),
            Step::Boot => Ok(Step::Boot),
        }
    }
}

impl Refusal {
    /// The refusal again, without memory.
    pub fn copy(&self) -> Refusal
        ensures { result ≡ self.now }
    {
        match self {
            Refusal::NoSession => Refusal::NoSession,
            Refusal::AlreadyOpen => Refusal::AlreadyOpen,
            Refusal::ConnectionLost => Refusal::ConnectionLost,
            Refusal::Locked(holder) => Refusal::Locked(*holder),
            Refusal::QueueFull(pending) => Refusal::QueueFull(*pending),
            Refusal::UnsuppCommand => Refusal::UnsuppCommand,
            Refusal::FormatNotSupported => Refusal::FormatNotSupported,
            Refusal::ModeNotSupported => Refusal::ModeNotSupported,
            Refusal::InvalidData => Refusal::InvalidData,
            Refusal::HardwareError => Refusal::HardwareError,
            Refusal::BadStore(slot) => Refusal::BadStore(*slot),
            Refusal::MinimumLength => Refusal::MinimumLength,
            Refusal::NoActiveKeys => Refusal::NoActiveKeys,
            Refusal::KeyNotSupported => Refusal::KeyNotSupported,
            Refusal::KeyNotFound => Refusal::KeyNotFound,
            Refusal::KeyNoValue => Refusal::KeyNoValue,
            Refusal::UseViolation => Refusal::UseViolation,
            Refusal::AccessDenied => Refusal::AccessDenied,
            Refusal::InvalidKeyLength => Refusal::InvalidKeyLength,
            Refusal::DuplicateKey(name) => Refusal::DuplicateKey(name.copy()),
            Refusal::TableFull => Refusal::TableFull,
            Refusal::NoPin => Refusal::NoPin,
            Refusal::LengthError => Refusal::LengthError,
            Refusal::Canceled => Refusal::Canceled,
            Refusal::Timeout => Refusal::Timeout,
            Refusal::InvalidReqId => Refusal::InvalidReqId,
            Refusal::NotLocked => Refusal::NotLocked,
        }
    }
}

impl Answer {
    /// The answer again. It fails for want of memory alone.
    pub fn copy(&self, alloc: Global) -> Result<Answer, NoMemory>
        ensures { IfOk result (λ answer. answer ≡ self.now) }
    {
        match self {
            Answer::Done => Ok(Answer::Done),
            Answer::Entered(count, completion) => Ok(Answer::Entered(*count, *completion)),
            Answer::Figures(digits, completion) => Ok(Answer::Figures(digits.copy(), *completion)),
            Answer::Part(count, completion, check) => Ok(Answer::Part(*count, *completion, *check)),
            Answer::Block(block) => Ok(Answer::Block(*block)),
            Answer::Wide(left, right) => Ok(Answer::Wide(*left, *right)),
            Answer::Checked(holds) => Ok(Answer::Checked(*holds)),
            Answer::Crypt(bytes) => Ok(Answer::Crypt(Octets::copy(alloc, bytes.items())?)),
            Answer::Mac(code) => Ok(Answer::Mac(*code)),
            Answer::Key(check) => Ok(Answer::Key(*check)),
        }
    }
}

impl Event {
    /// The event again, without memory.
    pub fn copy(&self) -> Event
        ensures { result ≡ self.now }
    {
        match self {
            Event::EnterData => Event::EnterData,
            Event::Key(shown) => Event::Key(*shown),
            Event::Initialized => Event::Initialized,
            Event::IllegalKeyAccess(name, refusal) => {
                Event::IllegalKeyAccess(name.copy(), refusal.copy())
            }
        }
    }
}
