//! The words of keys.
ghost use Rattle.std.specs.Prelude.{◌≡◌, ◌≤◌, length};
ghost use Rattle.key_source.specs.KeyWords.{key_at, fdk_at, read_key, key_text};

use crate::Key;
use pad_words::Digit;
use spelled_words::{Spelled, value_of, word_of};
use std::marker::Model;

// the words of keys, each beside the place of its key among the key bits
const KEY_WORDS: [Spelled<u8>; 21] = [
    Spelled(0, "0"),
    Spelled(1, "1"),
    Spelled(2, "2"),
    Spelled(3, "3"),
    Spelled(4, "4"),
    Spelled(5, "5"),
    Spelled(6, "6"),
    Spelled(7, "7"),
    Spelled(8, "8"),
    Spelled(9, "9"),
    Spelled(10, "A"),
    Spelled(11, "B"),
    Spelled(12, "C"),
    Spelled(13, "D"),
    Spelled(14, "E"),
    Spelled(15, "F"),
    Spelled(16, "enter"),
    Spelled(17, "cancel"),
    Spelled(18, "clear"),
    Spelled(19, "back"),
    Spelled(20, "help"),
];

// the words of function descriptor keys, each beside the place of its key among their bits
const FDK_WORDS: [Spelled<u8>; 32] = [
    Spelled(0, "fdk1"),
    Spelled(1, "fdk2"),
    Spelled(2, "fdk3"),
    Spelled(3, "fdk4"),
    Spelled(4, "fdk5"),
    Spelled(5, "fdk6"),
    Spelled(6, "fdk7"),
    Spelled(7, "fdk8"),
    Spelled(8, "fdk9"),
    Spelled(9, "fdk10"),
    Spelled(10, "fdk11"),
    Spelled(11, "fdk12"),
    Spelled(12, "fdk13"),
    Spelled(13, "fdk14"),
    Spelled(14, "fdk15"),
    Spelled(15, "fdk16"),
    Spelled(16, "fdk17"),
    Spelled(17, "fdk18"),
    Spelled(18, "fdk19"),
    Spelled(19, "fdk20"),
    Spelled(20, "fdk21"),
    Spelled(21, "fdk22"),
    Spelled(22, "fdk23"),
    Spelled(23, "fdk24"),
    Spelled(24, "fdk25"),
    Spelled(25, "fdk26"),
    Spelled(26, "fdk27"),
    Spelled(27, "fdk28"),
    Spelled(28, "fdk29"),
    Spelled(29, "fdk30"),
    Spelled(30, "fdk31"),
    Spelled(31, "fdk32"),
];

/// The word of a key: at most six bytes, and none for a number that no key has.
#[derive(Drop)]
pub struct KeyText {
    word: &'static str,
}

impl Model for KeyText {
    ghost use Rattle.std.specs.Prelude.{ℕ, ◌≤◌, List, length};

    ghost Value = { List ℕ };

    ghost view = { λ t. t.word.now };

    ghost invariant = { λ t. length t.word.now ≤ 6 };
}

impl KeyText {
    /// The bytes in order.
    pub fn items(&self) -> &[u8]
        ensures items { result.now ≡ self.now }
        ensures few { length result.now ≤ 6 }
    {
        self.word.as_bytes()
    }
}

impl Key {
    /// The key that this word spells. None where no key has the word.
    #[tactic(auto, unfolding(crate::specs::KeyWords::read_key))]
    pub fn read(word: &[u8]) -> Option<Key>
        ensures { result ≡ read_key word.now }
    {
        match value_of(&KEY_WORDS, word) {
            Some(place) => key_at(place),
            None => fdk_at(value_of(&FDK_WORDS, word)?),
        }
    }

    /// The word of the key. It has no bytes for a number that no key has.
    #[tactic(auto, unfolding(crate::specs::KeyWords::key_text))]
    pub fn text(self) -> KeyText
        ensures { result ≡ key_text self }
    {
        let word = match self.key_bit() {
            Some(place) => word_of(&KEY_WORDS, place),
            None => match self.fdk_bit() {
                Some(place) => word_of(&FDK_WORDS, place),
                None => "",
            },
        };
        KeyText { word }
    }
}

// the key whose place among the key bits this is
fn key_at(place: u8) -> Option<Key>
    ensures { result ≡ key_at place }
{
    match place {
        0..=9 => {
            let digit = Digit::new(place)?;
            Some(Key::Digit(digit))
        }
        10..=15 => Some(Key::Hex(place)),
        16 => Some(Key::Enter),
        17 => Some(Key::Cancel),
        18 => Some(Key::Clear),
        19 => Some(Key::Backspace),
        20 => Some(Key::Help),
        _ => None,
    }
}

// the function descriptor key whose place among their bits this is
fn fdk_at(place: u8) -> Option<Key>
    ensures { result ≡ fdk_at place }
{
    if place < 32 {
        Some(Key::Fdk(place + 1))
    } else {
        None
    }
}
