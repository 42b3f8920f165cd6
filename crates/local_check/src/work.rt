//! The standard PIN work.
ghost use Rattle.std.specs.Prelude.{◌≡◌, IsTrue, None, Ok, length, map, option_map};
ghost use Rattle.std.specs.Option.{option_copied};
ghost use Rattle.pad_steps.specs.Formed.{is_pin_request};
ghost use Rattle.pin_blocks.specs.PinRules.{fault_in};

use crate::checking::{admit_check, check, ready_check};
use key_attributes::{KeyValue, Use};
use pad_steps::PinRequest;
use pad_words::Digit;
use pin_blocks::{
    AdmitFault, PinAnswer, PinFault, PinWork, Wants, admit_block, encrypted, ready_block,
};

/// PIN blocks and the local check. No other command is admitted.
#[derive(Clone, Copy, Debug, PartialEq, Eq)]
pub struct StandardWork;

impl PinWork for StandardWork {
    ghost use Rattle.des_core.specs.TripleDes.{tdea_bytes};
    ghost use Rattle.local_check.specs.StandardWork.{standard_rules};
    ghost use Rattle.local_check.specs.FewWords.{standard_few};

    ghost rules = { standard_rules tdea_bytes };

    ghost few_words = { standard_few };

    fn admit(&self, request: &PinRequest) -> Result<(), AdmitFault> {
        match request {
            PinRequest::Block(block) => admit_block(block),
            PinRequest::Check(check) => admit_check(check),
            PinRequest::Extra(_) => Err(AdmitFault::UnsuppCommand),
        }
    }

    fn wants(&self, request: &PinRequest) -> Wants {
        match request {
            PinRequest::Block(block) => Wants {
                first: block.key.copy(),
                second: block.second.as_ref().map(|name| name.copy()),
                wanted: Use::PinRemote,
            },
            PinRequest::Check(check) => Wants {
                first: check.key.copy(),
                second: None,
                wanted: Use::PinLocal,
            },
            PinRequest::Extra(extra) => Wants {
                first: extra.key.copy(),
                second: None,
                wanted: Use::PinLocal,
            },
        }
    }

    fn ready(
        &self,
        request: &PinRequest,
        length: u8,
        _first: u8,
        _second: Option<u8>,
    ) -> Result<u8, PinFault> {
        match request {
            PinRequest::Block(block) => ready_block(block.form, length),
            PinRequest::Check(check) => ready_check(check, length),
            PinRequest::Extra(_) => Err(PinFault::LengthError),
        }
    }

    fn result(
        &self,
        request: &PinRequest,
        digits: &[Digit],
        first: &KeyValue,
        second: Option<&KeyValue>,
        fill: &[u32],
    ) -> PinAnswer {
        match request {
            PinRequest::Block(block) => {
                PinAnswer::Block(encrypted(block, digits, first, second, fill))
            }
            PinRequest::Check(request) => PinAnswer::Checked(check(request, digits, first)),
            // An extra command is not admitted.
            PinRequest::Extra(_) => PinAnswer::Checked(false),
        }
    }
}
