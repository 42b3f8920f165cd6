//! What each form of a PIN block takes.
ghost use Rattle.std.specs.Prelude.{◌≡◌, ◌≤◌};
ghost use Rattle.pin_blocks.specs.Blocks.{fits_form, is_supported, longest};

use pad_steps::{Form, are_decimal, is_pan};

/// Whether blocks of this form are made: of formats 0, 1 and 3 of ISO 9564-1 and of those of the IBM 3624 and of Diebold,
/// and not of ISO formats 2 and 4.
pub fn is_supported(form: Form) -> bool
    ensures { result ≡ is_supported form }
{
    !matches!(form, Form::Iso2 | Form::Iso4)
}

/// Whether this is the customer data that the form takes: a PAN without its check digit for formats 0 and 3, ten digits
/// for format 1, one hexadecimal digit for Diebold with a coordination number, and none for the others.
pub fn fits_form(form: Form, customer: &[u8]) -> bool
    ensures { result ≡ fits_form form customer.now }
{
    match form {
        Form::Iso0 | Form::Iso3 => is_pan(customer),
        Form::Iso1 => customer.len() == 10 && are_decimal(customer),
        Form::Ibm3624 | Form::Diebold => customer.is_empty(),
        Form::DieboldCo => customer.len() == 1,
        Form::Iso2 | Form::Iso4 => false,
    }
}

/// The greatest number of digits that a PIN of the form has; the least is 4.
pub fn longest(form: Form) -> u8
    ensures longest { result ≡ longest form }
    ensures fits { result ≤ 16 }
{
    match form {
        Form::Iso0 | Form::Iso1 | Form::Iso3 | Form::DieboldCo => 12,
        Form::Ibm3624 | Form::Diebold => 16,
        Form::Iso2 | Form::Iso4 => 0,
    }
}
