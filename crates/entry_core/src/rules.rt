//! The rules of an entry, and what a key does by them.
ghost use Rattle.std.specs.Prelude.{◌≡◌, ◌<◌, ◌≤◌, ◌++◌, ◌∷◌, [], Some, if◌then◌else◌, length, nat_lt};
ghost use Rattle.std.specs.Option.{option_map};
ghost use Rattle.pad_steps.specs.declared.commands.Command.TheVariants.{SecureKeyEntry};
ghost use Rattle.pad_steps.specs.declared.commands.EntryKind.TheVariants.{Part};
ghost use Rattle.entry_core.specs.Entries.{after_other, digit_in, digit_seen, ends_by, entry_by, entry_of, entry_refusal, greatest_length, has_hex_bits, has_unsupported_keys, has_unsupported_terminators, is_secret, shown_digit, terminator_seen};
ghost use Rattle.entry_core.specs.Presses.{FitEntry, IsEntrySize, after_press, most_digits, press_seen, refusal_of};

use crate::{EntryFault, Seen};
use key_source::{Key, Mask};
use pad_steps::{Command, Completion, EntryKind, EntryRules, PartRules, Shown, Verify};
use pad_words::Nibbles;
use std::marker::Model;

/// What an entry is by its rules: its kind, the least and the greatest number of digits, whether it ends by itself at
/// the greatest, the active keys, the keys that end it, and the check value that is answered for a key part. It holds
/// no digit.
#[derive(Drop)]
pub struct Entry {
    kind: EntryKind,
    least: u8,
    greatest: u8,
    auto_end: bool,
    active: Mask,
    terminate: Mask,
    check: Verify,
}

impl Model for Entry {
    ghost use Rattle.std.specs.Prelude.{◌≤◌};
    ghost use Rattle.entry_core.specs.Entries.{Entry as Rules};
    ghost use Rattle.entry_core.specs.Presses.{most_digits};

    ghost Value = { Rules };

    ghost view = { λ e. record {
      kind = e.kind;
      least = e.least;
      greatest = e.greatest;
      auto_end = e.auto_end;
      active = e.active;
      terminate = e.terminate;
      check = e.check;
    } };

    ghost invariant = { λ e. e.greatest ≤ most_digits e.kind };
}

impl Entry {
    /// The entry of this kind by these rules, as of a PIN or of data. A greatest length of 0 stands for 16.
    pub fn by(kind: EntryKind, rules: &EntryRules) -> Entry
        requires { greatest_length rules.now.max ≤ most_digits kind }
        ensures { result ≡ entry_by kind rules.now }
    {
        Entry {
            kind,
            least: rules.min,
            greatest: if rules.max == 0 { 16 } else { rules.max },
            auto_end: rules.auto_end,
            active: rules.active,
            terminate: rules.terminate,
            check: Verify::Nothing,
        }
    }

    /// The entry of a key part by these rules. Its least and its greatest length are its count.
    pub fn of_part(rules: &PartRules) -> Entry
        requires { rules.now.count ≤ most_digits Part }
        ensures { Some result ≡ entry_of (SecureKeyEntry rules.now) }
    {
        Entry {
            kind: EntryKind::Part,
            least: rules.count,
            greatest: rules.count,
            auto_end: rules.auto_end,
            active: rules.active,
            terminate: rules.terminate,
            check: rules.verify,
        }
    }

    /// The entry that the command asks for. None where it is no entry command.
    pub fn of(command: &Command) -> Option<Entry>
        requires { IsEntrySize (entry_of command.now) }
        ensures { result ≡ entry_of command.now }
    {
        match command {
            Command::GetPin(rules) => Some(Entry::by(EntryKind::Pin, rules)),
            Command::GetData(rules) => Some(Entry::by(EntryKind::Figures, rules)),
            Command::SecureKeyEntry(rules) => Some(Entry::of_part(rules)),
            _ => None,
        }
    }

    /// The same rules again.
    pub fn copy(&self) -> Entry
        ensures { result ≡ self.now }
    {
        Entry {
            kind: self.kind,
            least: self.least,
            greatest: self.greatest,
            auto_end: self.auto_end,
            active: self.active,
            terminate: self.terminate,
            check: self.check,
        }
    }

    /// What is entered.
    pub fn kind(&self) -> EntryKind
        ensures { result ≡ self.now.kind }
    {
        self.kind
    }

    /// The greatest number of digits: at most 48 of a key part, and at most 16 of a PIN or of data.
    pub fn greatest(&self) -> usize
        ensures value { result ≡ self.now.greatest }
        ensures most { result ≤ most_digits self.now.kind }
    {
        self.greatest as usize
    }

    /// The check value that the reply to a key part has.
    pub fn check(&self) -> Verify
        ensures { result ≡ self.now.check }
    {
        self.check
    }

    /// Why the entry is refused as it begins. None where it starts.
    pub fn refusal(&self) -> Option<EntryFault>
        ensures { option_map refusal_of result ≡ entry_refusal self.now }
    {
        if self.least > self.greatest {
            Some(EntryFault::MinimumLength)
        } else if self.active.keys == 0 && self.active.fdks == 0 {
            Some(EntryFault::NoActiveKeys)
        } else if self.has_unsupported_keys() {
            Some(EntryFault::KeyNotSupported)
        } else {
            None
        }
    }

    // whether a mask has a key that the pad or this kind of entry has not, or a terminating key that cannot terminate
    fn has_unsupported_keys(&self) -> bool
        ensures { result ≡ has_unsupported_keys self.now }
    {
        let has_hex_keys = has_hex_bits(self.active) || has_hex_bits(self.terminate);
        self.active.keys >= NO_KEY
            || self.terminate.keys >= NO_KEY
            || (self.kind != EntryKind::Part && has_hex_keys)
            || has_unsupported_terminators(self.terminate)
    }

    /// What a press does when this many digits are entered, and what is shown of it. In a PIN no digit tells.
    pub fn seen(&self, count: usize, key: Key) -> Seen
        ensures { result ≡ press_seen self.now count key }
    {
        if !self.active.has(key) {
            return Seen::Ignored;
        }
        match digit_in(self.kind, key) {
            Some(_) => self.digit_seen(count, shown_digit(self.kind, key)),
            None if self.terminate.has(key) => self.terminator_seen(count, key),
            None => Seen::Took(Shown::Plain(key)),
        }
    }

    // what an active digit does, which is shown so
    fn digit_seen(&self, count: usize, shown: Shown) -> Seen
        ensures { result ≡ digit_seen self.now count shown }
    {
        if count >= self.greatest() {
            Seen::Ignored
        } else if self.auto_end && count + 1 == self.greatest() {
            Seen::Ended(shown, Completion::Auto)
        } else {
            Seen::Took(shown)
        }
    }

    // what a key does that is active and terminates
    fn terminator_seen(&self, count: usize, key: Key) -> Seen
        ensures { result ≡ terminator_seen self.now count key }
    {
        match key {
            Key::Cancel => Seen::Ended(Shown::Plain(key), Completion::Cancel),
            Key::Enter => self.ends_by(count, key, Completion::Enter),
            Key::Help => self.ends_by(count, key, Completion::Help),
            Key::Fdk(number) => self.ends_by(count, key, Completion::Fdk(number)),
            _ => Seen::Took(Shown::Plain(key)),
        }
    }

    // the end by a terminating key, which does nothing below the least length
    fn ends_by(&self, count: usize, key: Key, completion: Completion) -> Seen
        ensures { result ≡ ends_by self.now count key completion }
    {
        if count < self.least as usize {
            Seen::Ignored
        } else {
            Seen::Ended(Shown::Plain(key), completion)
        }
    }

    /// Puts the effect of a press on the digits. They stay digits of this kind, and no more than its greatest length.
    pub fn enter(&self, digits: &mut Nibbles, key: Key)
        ensures digits { digits.new ≡ after_press self.now key digits.old }
        ensures fit { FitEntry self.now digits.old → FitEntry self.now digits.new }
    {
        if self.active.has(key) {
            match digit_in(self.kind, key) {
                Some(value) => append(digits, value, self.greatest()),
                None => edit(digits, key),
            }
        }
    }

    /// Whether the key is an active digit of a PIN. Nothing shows such a key.
    pub fn is_masked(&self, key: Key) -> bool
        ensures { result ≡ is_secret self.now key }
    {
        self.kind == EntryKind::Pin && digit_in(self.kind, key).is_some() && self.active.has(key)
    }
}

// the first number that has a key bit above that of HELP
const NO_KEY: u32 = 1 << 21;

// whether the mask has one of the digits A to F
fn has_hex_bits(mask: Mask) -> bool
    ensures { result ≡ has_hex_bits mask }
{
    (mask.keys >> 10) % 64 != 0
}

// whether the mask has a key bit other than ENTER, CANCEL and HELP
fn has_unsupported_terminators(mask: Mask) -> bool
    ensures { result ≡ has_unsupported_terminators mask }
{
    mask.keys % 65536 != 0 || (mask.keys >> 18) % 4 != 0 || mask.keys >> 21 != 0
}

// the value of a key that is a digit in this kind of entry
fn digit_in(kind: EntryKind, key: Key) -> Option<u8>
    ensures { result ≡ digit_in kind key }
{
    match key {
        Key::Digit(digit) => Some(digit.get()),
        Key::Hex(value) if kind == EntryKind::Part => Some(value),
        _ => None,
    }
}

// what is shown of a digit
fn shown_digit(kind: EntryKind, key: Key) -> Shown
    ensures { result ≡ shown_digit kind key }
{
    match kind {
        EntryKind::Figures => Shown::Plain(key),
        EntryKind::Pin | EntryKind::Part => Shown::Masked,
    }
}

// puts a digit at the end, unless the greatest number of digits is there
fn append(digits: &mut Nibbles, digit: u8, greatest: usize)
    requires few { greatest ≤ 48 }
    requires small { digit < 16 }
    ensures { digits.new
        ≡ (if nat_lt (length digits.old) greatest then digits.old ++ digit ∷ [] else digits.old) }
{
    if digits.items().len() < greatest {
        let _ = digits.push(digit);
    }
}

// the effect on the digits of a key that is none of them
fn edit(digits: &mut Nibbles, key: Key)
    ensures { digits.new ≡ after_other key digits.old }
{
    match key {
        Key::Backspace => digits.drop_last(),
        Key::Clear | Key::Cancel => digits.clear(),
        _ => {}
    }
}
