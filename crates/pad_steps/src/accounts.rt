//! Account numbers, which customer data may be.
ghost use Rattle.std.specs.Prelude.{◌≡◌};
ghost use Rattle.pad_steps.specs.Accounts.{all_decimal, is_pan};

/// Whether this is a PAN without its check digit (ISO/IEC 7812-1): 12 to 19 decimal digits.
pub fn is_pan(digits: &[u8]) -> bool
    ensures { result ≡ is_pan digits.now }
{
    12 <= digits.len() && digits.len() <= 19 && are_decimal(digits)
}

/// Whether all values are decimal digits.
pub fn are_decimal(values: &[u8]) -> bool
    ensures { result ≡ all_decimal values.now }
{
    values.iter().all(|&value| value < 10)
}
