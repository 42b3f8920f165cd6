// Why a command is refused as it is submitted.
ghost use Rattle.std.specs.Prelude.{◌≡◌, IsTrue, Some, if◌then◌else◌};
ghost use Rattle.flat_machine.specs.RequestSteps.{command_refusal, crypt_invalid, import_invalid, invalid_if, is_cfb, is_part_count};
ghost use Rattle.flat_machine.specs.PinCommands.{admit_refusal};
ghost use Rattle.pad_steps.specs.Formed.{is_pin_request};
ghost use Rattle.std.specs.Option.{option_map};
ghost use Rattle.pad_steps.specs.Formed.{is_well_formed_command};
ghost use Rattle.pad_steps.specs.declared.answers.Refusal.TheVariants.{ModeNotSupported};

use key_attributes::Uses;
use pad_steps::{
    Algorithm, Command, CryptRequest, ImportRequest, ImportSource, PinRequest, Refusal, Start,
};
use pad_words::Direction;
use pin_blocks::{AdmitFault, PinWork};

/// Why a command is refused as it is submitted, for what it asks.
pub fn command_refusal<W: PinWork>(work: &W, command: &Command) -> Option<Refusal>
    requires { IsTrue (is_well_formed_command command.now) }
    ensures { result ≡ command_refusal W.rules command.now }
{
    match command {
        Command::GetPin(rules) | Command::GetData(rules) => invalid_if(rules.max > 16),
        Command::SecureKeyEntry(rules) => invalid_if(!is_part_count(rules.count)),
        Command::Pin(request) => pin_refusal(work, request),
        Command::Crypt(request) => crypt_refusal(request),
        Command::ImportKey(request) => invalid_if(is_invalid(request)),
        Command::RsaImport => Some(Refusal::UnsuppCommand),
        // What is asked of these is never refused so.
        Command::MaintainPin(_) | Command::DeleteKey(_) | Command::Init | Command::Reset => None,
    }
}

// INVALIDDATA where the test holds.
fn invalid_if(test: bool) -> Option<Refusal>
    ensures { result ≡ invalid_if test }
{
    if test {
        return Some(Refusal::InvalidData);
    }
    None
}

// Whether a key part may have so many digits: those of a key of 8, 16 or 24 bytes.
fn is_part_count(count: u8) -> bool
    ensures { result ≡ is_part_count count }
{
    matches!(count, 16 | 32 | 48)
}

// Why the PIN work does not admit a request.
fn pin_refusal<W: PinWork>(work: &W, request: &PinRequest) -> Option<Refusal>
    requires { IsTrue (is_pin_request request.now) }
    ensures { result ≡ option_map admit_refusal (W.rules.admit request.now) }
{
    match work.admit(request) {
        Ok(()) => None,
        Err(AdmitFault::UnsuppCommand) => Some(Refusal::UnsuppCommand),
        Err(AdmitFault::FormatNotSupported) => Some(Refusal::FormatNotSupported),
        Err(AdmitFault::InvalidData) => Some(Refusal::InvalidData),
    }
}

// Whether the word of uses is not valid, or asks for parts of another source.
fn is_invalid(request: &ImportRequest) -> bool
    ensures { result ≡ import_invalid request.now }
{
    let is_part = matches!(request.source, ImportSource::Part);
    match Uses::from_bits(request.uses) {
        Some(uses) => (uses.has_construct() && is_part)
            || (uses.has_secure_construct() && !is_part),
        None => true,
    }
}

// MODENOTSUPPORTED for cipher feedback; INVALIDDATA for an authentication code to decrypt, or a start value of another
// algorithm than cipher block chaining.
fn crypt_refusal(request: &CryptRequest) -> Option<Refusal>
    ensures { result
        ≡ if is_cfb request.now.algorithm then Some ModeNotSupported else invalid_if (crypt_invalid request.now) }
{
    let has_start = !matches!(request.start, Start::Zero);
    match (request.algorithm, request.direction) {
        (Algorithm::Cfb, _) => Some(Refusal::ModeNotSupported),
        (Algorithm::Mac | Algorithm::Retail, Direction::Decrypt) => Some(Refusal::InvalidData),
        (Algorithm::Cbc, _) => None,
        _ if has_start => Some(Refusal::InvalidData),
        _ => None,
    }
}
