//! Refusals put behind a text.
ghost use Rattle.std.specs.Prelude.{◌≡◌, ◌++◌, OnOk};
ghost use Rattle.transcript.specs.Refusals.{refusal_text};

use crate::values::put_session;
use pad_steps::Refusal;
use pad_words::{NoMemory, Octets};
use script_lang::writing::{write_number, write_word};
use std::alloc::Global;

#[tactic(auto, unfolding(crate::specs::Refusals::refusal_text))]
pub fn put_refusal(alloc: Global, refusal: &Refusal, text: &mut Octets) -> Result<(), NoMemory>
    ensures { OnOk result (text.new ≡ text.old ++ refusal_text refusal.now) }
{
    match refusal {
        Refusal::NoSession => write_word("NOSESSION", text),
        Refusal::AlreadyOpen => write_word("ALREADYOPEN", text),
        Refusal::ConnectionLost => write_word("CONNECTIONLOST", text),
        Refusal::Locked(holder) => {
            write_word("LOCKED ", text)?;
            put_session(alloc, holder, text)
        }
        Refusal::QueueFull(n) => {
            write_word("QUEUEFULL ", text)?;
            write_number(alloc, u32::from(*n), text)
        }
        Refusal::UnsuppCommand => write_word("UNSUPPCOMMAND", text),
        Refusal::FormatNotSupported => write_word("FORMATNOTSUPPORTED", text),
        Refusal::ModeNotSupported => write_word("MODENOTSUPPORTED", text),
        Refusal::InvalidData => write_word("INVALIDDATA", text),
        Refusal::HardwareError => write_word("HARDWAREERROR", text),
        Refusal::BadStore(slot) => {
            write_word("BADSTORE ", text)?;
            write_number(alloc, u32::from(*slot), text)
        }
        Refusal::MinimumLength => write_word("MINIMUMLENGTH", text),
        Refusal::NoActiveKeys => write_word("NOACTIVEKEYS", text),
        Refusal::KeyNotSupported => write_word("KEYNOTSUPPORTED", text),
        Refusal::KeyNotFound => write_word("KEYNOTFOUND", text),
        Refusal::KeyNoValue => write_word("KEYNOVALUE", text),
        Refusal::UseViolation => write_word("USEVIOLATION", text),
        Refusal::AccessDenied => write_word("ACCESSDENIED", text),
        Refusal::InvalidKeyLength => write_word("INVALIDKEYLENGTH", text),
        Refusal::DuplicateKey(name) => {
            write_word("DUPLICATEKEY ", text)?;
            text.append(name.text())
        }
        Refusal::TableFull => write_word("TABLEFULL", text),
        Refusal::NoPin => write_word("NOPIN", text),
        Refusal::LengthError => write_word("LENGTHERROR", text),
        Refusal::Canceled => write_word("CANCELED", text),
        Refusal::Timeout => write_word("TIMEOUT", text),
        Refusal::InvalidReqId => write_word("INVALIDREQID", text),
        Refusal::NotLocked => write_word("NOTLOCKED", text),
    }
}
