//! Decimal numbers and sessions by their words.
ghost use Rattle.std.specs.Prelude.{◌≡◌, ◌≤◌, ◌<◌, length, IfSome};
ghost use Rattle.script_lang.specs.Reading.{decimal_value, decimal_number, has_plain_front, read_number, read_session};

use pad_words::Session;

// the value of a decimal digit
fn decimal_value(c: u8) -> Option<u8>
    ensures value { result ≡ decimal_value c }
    ensures small { IfSome result (λ v. v < 10) }
{
    match c {
        b'0'..=b'9' => Some(c - b'0'),
        _ => None,
    }
}

// the number of at most ten decimal digits
fn decimal_number(word: &[u8]) -> Option<u64>
    requires { length word.now ≤ 10 }
    ensures { result ≡ decimal_number word.now }
{
    let mut n = 0u64;
    for &c in word {
        let digit = decimal_value(c)?;
        n = 10 * n + u64::from(digit);
    }
    Some(n)
}

// there is a first digit, and it is no leading zero
#[tactic(auto, unfolding(crate::specs::Reading::has_plain_front))]
fn has_plain_front(word: &[u8]) -> bool
    ensures { result ≡ has_plain_front word.now }
{
    match word {
        [] => false,
        [_] => true,
        [first, _, ..] => *first != b'0',
    }
}

/// The number from `low` to `high` that these decimal digits are, without a leading zero. None where they are no such number.
#[tactic(auto, unfolding(crate::specs::Reading::read_number))]
pub fn read_number(low: u32, high: u32, word: &[u8]) -> Option<u32>
    ensures exact { result ≡ read_number low high word.now }
    ensures range { IfSome result (λ n. (low ≤ n) × (n ≤ high)) }
{
    if has_plain_front(word) && word.len() <= 10 {
        let n = decimal_number(word)?;
        if u64::from(low) <= n && n <= u64::from(high) {
            Some(n as u32)
        } else {
            None
        }
    } else {
        None
    }
}

// a session, 1 to 16
#[tactic(auto, unfolding(crate::specs::Reading::read_session))]
pub fn read_session(word: &[u8]) -> Option<Session>
    ensures { result ≡ read_session word.now }
{
    let n = read_number(1, 16, word)?;
    Session::new(n as u8)
}
