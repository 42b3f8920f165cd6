//! The sixteen nibbles of each form.
ghost use Rattle.std.specs.Prelude.{◌≡◌, ◌<◌, ◌≤◌, ◌-◌, ◌∷◌, ◌++◌, ℕ, IsTrue, List, length, map, replicate};
ghost use Rattle.pad_steps.specs.Accounts.{is_pan};
ghost use Rattle.pad_steps.specs.declared.commands.Form.TheVariants as forms;
ghost use Rattle.pin_blocks.specs.BlockWork.{fill_count};
ghost use Rattle.pin_blocks.specs.Blocks.{block_nibbles, fits_form, is_supported, longest, pan_field, sixteen};

use crate::fields::Field;
use pad_steps::Form;
use pad_words::{Digit, Nibbles};

/// The sixteen nibbles of a PIN, in a form that takes its length and this customer data.
pub fn layout(form: Form, digits: &[Digit], customer: &Nibbles, pad: u8, fill: &[u32]) -> Field
    requires supported { IsTrue (is_supported form) }
    requires customer { IsTrue (fits_form form customer.now) }
    requires pad { pad < 16 }
    requires least { 4 ≤ length digits.now }
    requires most { length digits.now ≤ longest form }
    requires fill { fill_count form (length digits.now) ≤ length fill.now }
    ensures nibbles { result ≡ block_nibbles form (map (λ digit. digit.value) digits.now) customer.now pad fill.now }
    ensures whole { length result ≡ 16 }
{
    match form {
        Form::Iso0 => iso_0(digits, customer),
        Form::Iso1 => iso_1(digits, customer),
        Form::Iso3 => iso_3(digits, customer, fill),
        Form::Ibm3624 | Form::Diebold | Form::DieboldCo => padded(customer, digits, pad),
        // No blocks of these are made.
        Form::Iso2 | Form::Iso4 => unreachable!(),
    }
}

// Format 0 of ISO 9564-1: nibbles F up to the sixteenth, then XORed with the account number field.
fn iso_0(digits: &[Digit], customer: &Nibbles) -> Field
    requires few { length digits.now ≤ 12 }
    requires pan { IsTrue (is_pan customer.now) }
    ensures nibbles { (pad : ℕ) (fill : List ℕ) → result ≡ block_nibbles forms.Iso0 (map (λ digit. digit.value) digits.now) customer.now pad fill }
    ensures whole { length result ≡ 16 }
{
    let mut field = with_length(0, digits);
    field.pad_with(15);
    field.exclusive_or(&account_field(customer));
    field
}

// Format 1 of ISO 9564-1: the first transaction digits up to the sixteenth nibble.
fn iso_1(digits: &[Digit], customer: &Nibbles) -> Field
    requires least { 4 ≤ length digits.now }
    requires most { length digits.now ≤ 12 }
    requires ten { length customer.now ≡ 10 }
    ensures nibbles { (pad : ℕ) (fill : List ℕ) → result ≡ block_nibbles forms.Iso1 (map (λ digit. digit.value) digits.now) customer.now pad fill }
    ensures whole { length result ≡ 16 }
{
    let mut field = with_length(1, digits);
    field.put_all(customer.items());
    field
}

// Format 3 of ISO 9564-1: fill nibbles up to the sixteenth, then XORed with the account number field.
fn iso_3(digits: &[Digit], customer: &Nibbles, fill: &[u32]) -> Field
    requires few { length digits.now ≤ 12 }
    requires pan { IsTrue (is_pan customer.now) }
    requires fill { 14 - length digits.now ≤ length fill.now }
    ensures nibbles { (pad : ℕ) → result ≡ block_nibbles forms.Iso3 (map (λ digit. digit.value) digits.now) customer.now pad fill.now }
    ensures whole { length result ≡ 16 }
{
    let mut field = with_length(3, digits);
    field.put_fill(fill);
    field.exclusive_or(&account_field(customer));
    field
}

// The IBM 3624 and Diebold: the coordination number, if there is one, the PIN, and the padding nibble up to the sixteenth.
fn padded(customer: &Nibbles, digits: &[Digit], pad: u8) -> Field
    requires pad { pad < 16 }
    ensures nibbles { result ≡ sixteen (customer.now ++ map (λ digit. digit.value) digits.now ++ replicate 16 pad) }
    ensures whole { length result ≡ 16 }
{
    let mut field = Field::empty();
    field.put_all(customer.items());
    field.put_digits(digits);
    field.pad_with(pad);
    field
}

// The control nibble, the length and the PIN.
fn with_length(control: u8, digits: &[Digit]) -> Field
    requires control { control < 16 }
    requires few { length digits.now ≤ 12 }
    ensures { result ≡ control ∷ length digits.now ∷ map (λ digit. digit.value) digits.now }
{
    let mut field = Field::empty();
    field.put(control);
    field.put(digits.len() as u8);
    field.put_digits(digits);
    field
}

// The account number field: 0000 and the 12 rightmost digits of the PAN without its check digit.
fn account_field(customer: &Nibbles) -> Field
    requires { IsTrue (is_pan customer.now) }
    ensures field { result ≡ pan_field customer.now }
    ensures whole { length result ≡ 16 }
{
    let digits = customer.items();
    let mut field = Field::empty();
    field.put_all(&[0; 4]);
    field.put_all(&digits[digits.len() - 12..]);
    field
}
