// PIN commands: what a command comes to without a digit. What is done with a PIN is the PIN work's alone.
ghost use Rattle.std.specs.Prelude.{◌≡◌, ◌≤◌, IfOk, IsOk, IsTrue, None, Some, false, length};
ghost use Rattle.std.specs.Option.{option_copied, option_map};
ghost use Rattle.flat_machine.specs.PinCommands.{pin_reply, pin_work, ready_refusal};
ghost use Rattle.pad_steps.specs.Formed.{is_extra, is_pin_request};

use crate::refusals::{denied, refused};
use flat_machine::types::Work;
use key_attributes::KeyValue;
use key_table::StoredKeys;
use pad_steps::{Answer, PinRequest, Refusal};
use pad_words::NoMemory;
use pin_blocks::{PinAnswer, PinFault, PinWork};
use std::alloc::Global;

/// What a PIN command comes to at this number of digits. No digit is seen.
pub fn pin_work<W: PinWork>(
    alloc: Global,
    work: &W,
    keys: &StoredKeys,
    count: usize,
    request: &PinRequest,
) -> Result<Work, NoMemory>
    requires formed { IsTrue (is_pin_request request.now) }
    requires few { count ≤ 16 }
    ensures work { IfOk result (λ found. found ≡ pin_work W.rules keys.now.rows count request.now) }
    ensures memory { is_extra request.now ≡ false → IsOk result }
{
    let wants = work.wants(request);
    let first = match keys.permit(&wants.first, wants.wanted) {
        Ok(key) => key,
        Err(why) => return Ok(denied(why, &wants.first)),
    };
    let second = match &wants.second {
        None => None,
        Some(name) => match keys.permit(name, wants.wanted) {
            Ok(key) => Some(key),
            Err(why) => return Ok(denied(why, name)),
        },
    };
    if count == 0 {
        return Ok(refused(Refusal::NoPin));
    }
    match work.ready(
        request,
        count as u8,
        length_of(first),
        second.map(length_of),
    ) {
        Err(fault) => Ok(refused(ready_refusal(fault))),
        Ok(draws) => Ok(Work::Release {
            request: request.copy(alloc)?,
            first: first.copy(),
            second: second.map(KeyValue::copy),
            draws,
        }),
    }
}

// The length of a key in bytes.
fn length_of(key: &KeyValue) -> u8
    ensures { result ≡ length key.now }
{
    key.bytes().len() as u8
}

// The refusal of a request that is not ready at these lengths.
fn ready_refusal(fault: PinFault) -> Refusal
    ensures { result ≡ ready_refusal fault }
{
    match fault {
        PinFault::LengthError => Refusal::LengthError,
        PinFault::InvalidKeyLength => Refusal::InvalidKeyLength,
    }
}

/// The answer of the PIN work, as a command's.
pub fn pin_reply(answer: PinAnswer) -> Answer
    ensures { result ≡ pin_reply answer }
{
    match answer {
        PinAnswer::Block(block) => Answer::Block(block),
        PinAnswer::Wide(left, right) => Answer::Wide(left, right),
        PinAnswer::Checked(holds) => Answer::Checked(holds),
    }
}
