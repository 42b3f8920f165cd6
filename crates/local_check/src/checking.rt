//! The local check of an IBM 3624 PIN.
ghost use Rattle.std.specs.Prelude.{◌≡◌, ◌<◌, ◌≤◌, ◌++◌, All, IsTrue, None, get_or, length, map, replicate};
ghost use Rattle.des_core.specs.TripleDes.{tdea_bytes};
ghost use Rattle.local_check.specs.Checks.{admit_check, check_sums, checks, looked_up, no_zero_first, ready_check, sums};
ghost use Rattle.pad_steps.specs.Formed.{is_check_request};
ghost use Rattle.pad_words.specs.Bytes.{packed, unpacked};
ghost use Rattle.pin_blocks.specs.Blocks.{sixteen};
ghost use Rattle.pin_blocks.specs.PinRules.{fault_in};

use check_values::cipher_of;
use key_attributes::KeyValue;
use pad_steps::CheckRequest;
use pad_words::{Block, Digit, Nibbles};
use pin_blocks::{AdmitFault, Field, PinFault};

/// Whether a check is admitted as it is submitted, or why not.
pub fn admit_check(request: &CheckRequest) -> Result<(), AdmitFault>
    ensures { fault_in result ≡ admit_check request.now }
{
    let count = request.count;
    if count == 0 || count > 16 || request.offset.items().len() > count as usize {
        return Err(AdmitFault::InvalidData);
    }
    Ok(())
}

/// The number of fill words that a check draws for a PIN of this length, which is 0, or why it is refused.
pub fn ready_check(request: &CheckRequest, length: u8) -> Result<u8, PinFault>
    ensures { result ≡ ready_check request.now length }
{
    if length < request.count {
        return Err(PinFault::LengthError);
    }
    Ok(0)
}

/// Whether the first digits of a PIN, as many as the count of the request, are those that the check gives: the validation
/// data padded to sixteen nibbles and encrypted under the key (FIPS 46-3), its nibbles replaced by the digits that the
/// table has for them, and the offset added modulo 10; with the no-zero flag a first sum of 0 becomes 1. It takes no
/// memory.
pub fn check(request: &CheckRequest, digits: &[Digit], key: &KeyValue) -> bool
    requires formed { IsTrue (is_check_request request.now) }
    requires admitted { admit_check request.now ≡ None }
    requires enough { request.now.count ≤ length digits.now }
    ensures { result ≡ checks tdea_bytes request.now (map (λ digit. digit.value) digits.now) key.now }
{
    let sums = check_sums(request, key);
    for i in 0..request.count as usize {
        if digits[i].get() != sums[i] {
            return false;
        }
    }
    true
}

// The digits that a PIN must have.
fn check_sums(request: &CheckRequest, key: &KeyValue) -> [u8; 16]
    requires { IsTrue (is_check_request request.now) }
    ensures { result ≡ check_sums tdea_bytes request.now key.now }
{
    let encrypted = cipher_of(key).encrypt(padded(&request.validation, request.pad));
    let digits = looked_up(&request.table, encrypted);
    no_zero_first(request.no_zero, added(&digits, &request.offset))
}

// The validation data, padded on the right to sixteen nibbles.
fn padded(validation: &Nibbles, pad: u8) -> Block
    requires few { length validation.now ≤ 16 }
    requires pad { pad < 16 }
    ensures { result.0 ≡ packed (sixteen (validation.now ++ replicate 16 pad)) }
{
    let mut field = Field::empty();
    field.put_all(validation.items());
    field.pad_with(pad);
    field.block()
}

// The nibbles of a block, the left one of each byte first, each replaced by the digit that the table has for it.
fn looked_up(table: &Nibbles, block: Block) -> [u8; 16]
    requires { length table.now ≡ 16 }
    ensures digits { result ≡ looked_up table.now (unpacked block.0) }
    ensures small { All (λ digit. digit < 16) result }
{
    let table = table.items();
    let mut digits = [0; 16];
    for i in 0..8 {
        let byte = block.0[i];
        digits[2 * i] = table[(byte / 16) as usize];
        digits[2 * i + 1] = table[(byte % 16) as usize];
    }
    digits
}

// Each digit plus the offset's digit in its place, modulo 10.
fn added(digits: &[u8; 16], offset: &Nibbles) -> [u8; 16]
    requires { All (λ digit. digit < 16) digits.now }
    ensures { result ≡ sums digits.now offset.now }
{
    let mut sums = [0; 16];
    for i in 0..16 {
        sums[i] = (digits[i] + digit_at(offset, i)) % 10;
    }
    sums
}

// The offset's digit in this place, and 0 past its end.
fn digit_at(offset: &Nibbles, place: usize) -> u8
    ensures digit { result ≡ get_or offset.now place 0 }
    ensures small { result < 16 }
{
    match offset.items().get(place) {
        Some(&digit) => digit,
        None => 0,
    }
}

// With the flag a first digit of 0 becomes 1.
fn no_zero_first(flag: bool, digits: [u8; 16]) -> [u8; 16]
    ensures { result ≡ no_zero_first flag digits }
{
    let mut digits = digits;
    if flag && digits[0] == 0 {
        digits[0] = 1;
    }
    digits
}
