//! Numbers with a range of their own: a decimal digit and a session's number.
ghost use Rattle.std.specs.Prelude.{◌≡◌, ◌<◌, ◌≤◌, ◌↔◌, IsSome, IfSome};

/// A decimal digit, 0 to 9.
#[derive(Clone, Copy, Debug, PartialEq, Eq)]
pub struct Digit {
    pub value: u8,
    pub ghost small: { value < 10 },
}

impl Digit {
    ghost use Rattle.pad_words.specs.Numbers.{digit_of};

    /// The digit of this value. None above 9.
    pub fn new(v: u8) -> Option<Digit>
        ensures exact { result ≡ digit_of v }
        ensures valid { IsSome result ↔ (v < 10) }
        ensures value { IfSome result (λ d. d.value ≡ v) }
    {
        if v < 10 {
            Some(Digit { value: v })
        } else {
            None
        }
    }

    /// The digit's value, 0 to 9.
    pub fn get(self) -> u8
        ensures value { result ≡ self.value }
        ensures small { result < 10 }
    {
        self.value
    }
}

impl Default for Digit {
    /// The digit 0.
    fn default() -> Digit
        ensures { result.value ≡ 0 }
    {
        Digit { value: 0 }
    }
}

/// A session's number, 1 to 16.
#[derive(Clone, Copy, Debug, PartialEq, Eq)]
pub struct Session {
    pub number: u8,
    pub ghost valid: { (0 < number) × (number ≤ 16) },
}

impl Session {
    ghost use Rattle.pad_words.specs.Numbers.{session_of};

    /// The session of this number. None outside 1 to 16.
    pub fn new(v: u8) -> Option<Session>
        ensures exact { result ≡ session_of v }
        ensures valid { IsSome result ↔ ((0 < v) × (v ≤ 16)) }
        ensures value { IfSome result (λ s. s.number ≡ v) }
    {
        if 0 < v && v <= 16 {
            Some(Session { number: v })
        } else {
            None
        }
    }

    /// The session's number, 1 to 16.
    pub fn get(self) -> u8
        ensures value { result ≡ self.number }
        ensures valid { (0 < result) × (result ≤ 16) }
    {
        self.number
    }
}

impl Default for Session {
    /// The session 1.
    fn default() -> Session
        ensures { result.number ≡ 1 }
    {
        Session { number: 1 }
    }
}
