//! Encrypted blocks, and what refuses them.
ghost use Rattle.std.specs.Prelude.{◌≡◌, IsTrue, None, Ok, length, map};
ghost use Rattle.std.specs.Option.{option_copied};
ghost use Rattle.des_core.specs.TripleDes.{tdea_bytes};
ghost use Rattle.pad_steps.specs.Formed.{is_block_request};
ghost use Rattle.pin_blocks.specs.BlockWork.{admit_block, block_bytes, ready_block, xor_with};
ghost use Rattle.pin_blocks.specs.PinRules.{fault_in};

use crate::forms::{fits_form, is_supported, longest};
use crate::layouts::layout;
use crate::work::{AdmitFault, PinFault};
use check_values::cipher_of;
use key_attributes::KeyValue;
use pad_steps::{BlockRequest, Form};
use pad_words::{Block, Digit};

/// Whether a block is admitted as it is submitted, or why not.
pub fn admit_block(request: &BlockRequest) -> Result<(), AdmitFault>
    ensures { fault_in result ≡ admit_block request.now }
{
    if !is_supported(request.form) {
        return Err(AdmitFault::FormatNotSupported);
    }
    let is_xor_alone = request.xor.is_some() && request.second.is_none();
    if !fits_form(request.form, request.customer.items()) || is_xor_alone {
        return Err(AdmitFault::InvalidData);
    }
    Ok(())
}

/// The number of fill words that a block draws for a PIN of this length, or why it is refused.
pub fn ready_block(form: Form, length: u8) -> Result<u8, PinFault>
    ensures { result ≡ ready_block form length }
{
    if length < 4 || longest(form) < length {
        return Err(PinFault::LengthError);
    }
    match form {
        Form::Iso3 => Ok(14 - length),
        _ => Ok(0),
    }
}

/// The block of a PIN encrypted under the first key (FIPS 46-3); where there is a second key, then XORed with the data of
/// the request, if any, and encrypted under the second key. It takes no memory.
pub fn encrypted(
    request: &BlockRequest,
    digits: &[Digit],
    first: &KeyValue,
    second: Option<&KeyValue>,
    fill: &[u32],
) -> Block
    requires formed { IsTrue (is_block_request request.now) }
    requires admitted { admit_block request.now ≡ None }
    requires ready { ready_block request.now.form (length digits.now) ≡ Ok (length fill.now) }
    ensures { result.0 ≡ block_bytes tdea_bytes request.now (map (λ digit. digit.value) digits.now) first.now (option_copied second.entry) fill.now }
{
    let clear = layout(request.form, digits, &request.customer, request.pad, fill).block();
    let once = cipher_of(first).encrypt(clear);
    match second {
        Some(second) => cipher_of(second).encrypt(mixed(request.xor, once)),
        None => once,
    }
}

// XORed with the data, if there is any.
fn mixed(xor: Option<Block>, block: Block) -> Block
    ensures { result.0 ≡ xor_with xor block.0 }
{
    let mut bytes = block.0;
    if let Some(other) = xor {
        pad_words::exclusive_or(&mut bytes, &other.0);
    }
    Block(bytes)
}
