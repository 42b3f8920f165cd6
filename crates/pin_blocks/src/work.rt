//! What is done with a PIN: the trait on which the machine stands, and its answers.
ghost use Rattle.std.specs.Prelude.{◌≡◌, IsTrue, None, Ok, length, map, option_map};
ghost use Rattle.std.specs.Option.{option_copied};
ghost use Rattle.pad_steps.specs.Formed.{is_pin_request};
ghost use Rattle.pin_blocks.specs.PinRules.{fault_in};

use key_attributes::{KeyValue, Use};
use pad_steps::PinRequest;
use pad_words::{Block, Digit, KeyName};

/// Why a PIN work refuses a request as it is submitted.
#[derive(Clone, Copy, Debug, PartialEq, Eq)]
pub enum AdmitFault {
    /// The work does not have this command.
    UnsuppCommand,
    /// It does not make blocks of this form.
    FormatNotSupported,
    /// Its data does not fit.
    InvalidData,
}

/// The keys that a PIN command wants, and the use that each must have.
#[derive(Drop)]
pub struct Wants {
    pub first: KeyName,
    pub second: Option<KeyName>,
    pub wanted: Use,
}

/// Why a PIN command is refused, by lengths alone.
#[derive(Clone, Copy, Debug, PartialEq, Eq)]
pub enum PinFault {
    /// The command does not take a PIN of this length.
    LengthError,
    /// It does not take a key of this length.
    InvalidKeyLength,
}

/// What a PIN command releases of a PIN.
#[derive(Clone, Copy, Debug, PartialEq, Eq)]
pub enum PinAnswer {
    /// An encrypted block.
    Block(Block),
    /// Two encrypted blocks, the left one first.
    Wide(Block, Block),
    /// Whether a check holds.
    Checked(bool),
}

/// What is done with a PIN. Nothing but `result` is handed a digit, and `result` cannot refuse: so no refusal depends on
/// a digit, but only on the PIN's length. No call takes memory.
pub trait PinWork {
    ghost use Rattle.pin_blocks.specs.PinRules.{DrawsFewWords, PinRules};

    /// The work as functions of what it is handed.
    ghost rules: { PinRules };

    /// No request draws more than 255 fill words.
    ghost few_words: { DrawsFewWords rules };

    /// Whether the request is admitted as it is submitted, or why not.
    fn admit(&self, request: &PinRequest) -> Result<(), AdmitFault>
        requires { IsTrue (is_pin_request request.now) }
        ensures { fault_in result ≡ rules.admit request.now };

    /// The keys that the request wants, and their use.
    fn wants(&self, request: &PinRequest) -> Wants
        requires { IsTrue (is_pin_request request.now) }
        ensures { result ≡ rules.wants request.now };

    /// The number of fill words that the request draws for a PIN of this length, under keys of these lengths in bytes; or
    /// why it is refused.
    fn ready(
        &self,
        request: &PinRequest,
        length: u8,
        first: u8,
        second: Option<u8>,
    ) -> Result<u8, PinFault>
        requires { IsTrue (is_pin_request request.now) }
        ensures { result ≡ rules.ready request.now length first second };

    /// The answer for these digits and keys, of a request that was admitted and is ready, with the fill words that it draws.
    fn result(
        &self,
        request: &PinRequest,
        digits: &[Digit],
        first: &KeyValue,
        second: Option<&KeyValue>,
        fill: &[u32],
    ) -> PinAnswer
        requires formed { IsTrue (is_pin_request request.now) }
        requires admitted { rules.admit request.now ≡ None }
        requires ready { rules.ready request.now (length digits.now) (length first.now) (option_map length (option_copied second)) ≡ Ok (length fill.now) }
        ensures { result ≡ rules.result request.now (map (λ digit. digit.value) digits.now) first.now (option_copied second.entry) fill.now };
}
