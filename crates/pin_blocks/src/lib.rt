//! PIN blocks: the digits of a PIN as a block of sixteen nibbles, in clear and encrypted; and what may be done with a PIN.
#![tactic(auto)]

mod encryption;
mod fields;
mod fill;
mod forms;
pub mod laws;
mod layouts;
#[cfg(test)]
mod tests;
pub mod work;

ghost use Rattle.std.specs.Prelude.{◌≡◌, ◌≤◌, IfOk, length, map};
ghost use Rattle.pad_words.specs.Bytes.{packed};
ghost use Rattle.pin_blocks.specs.BlockWork.{fill_count};
ghost use Rattle.pin_blocks.specs.Blocks.{block_nibbles};
ghost use Rattle.pin_blocks.specs.Faults.{block_fault};
ghost use Rattle.pin_blocks.specs.PinRules.{fault_in};

pub use encryption::{admit_block, encrypted, ready_block};
pub use fields::Field;
pub use fill::fill_words;
use forms::{fits_form, is_supported, longest};
use layouts::layout;
use pad_steps::Form;
use pad_words::{Block, Digit, Nibbles};
pub use work::{AdmitFault, PinAnswer, PinFault, PinWork, Wants};

/// Why a block is not made.
#[derive(Clone, Copy, Debug, PartialEq, Eq)]
pub enum FormFault {
    /// Blocks of this form are not made.
    FormatNotSupported,
    /// The customer data does not fit the form, or the padding nibble is above 15.
    InvalidData,
    /// The PIN has fewer than 4 digits or more than the form takes.
    LengthError,
}

/// The block of a PIN: format 0, 1 or 3 of ISO 9564-1, that of the IBM 3624, or that of Diebold, without or with a
/// coordination number.
///
/// `customer` is the PAN without its check digit for formats 0 and 3, ten transaction digits for format 1, the
/// coordination number for Diebold with one, and empty for the others. `pad` is the padding nibble of the IBM 3624 and of
/// Diebold. `fill` are the words from which format 3 takes its fill nibbles; it uses the first 14 less the PIN's length.
/// It takes no memory.
pub fn format(
    form: Form,
    digits: &[Digit],
    customer: &Nibbles,
    pad: u8,
    fill: &[u32],
) -> Result<Block, FormFault>
    requires { fill_count form (length digits.now) ≤ length fill.now }
    // Refused by the first fault that applies, and only so.
    ensures fault { fault_in result ≡ block_fault form (map (λ digit. digit.value) digits.now) customer.now pad }
    ensures block { IfOk result (λ block. block.0 ≡ packed (block_nibbles form (map (λ digit. digit.value) digits.now) customer.now pad fill.now)) }
{
    if !is_supported(form) {
        return Err(FormFault::FormatNotSupported);
    }
    if !fits_form(form, customer.items()) || pad > 15 {
        return Err(FormFault::InvalidData);
    }
    if digits.len() < 4 || digits.len() > longest(form) as usize {
        return Err(FormFault::LengthError);
    }
    Ok(layout(form, digits, customer, pad, fill).block())
}
