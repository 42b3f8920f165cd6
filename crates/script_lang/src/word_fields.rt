//! Tables of words, each value beside its word, and what they read and write.
ghost use Rattle.std.specs.Prelude.{◌≡◌};
ghost use Rattle.script_lang.specs.Reading.{read_end, read_switch, read_zero, read_classes, read_verify, read_form, read_algorithm, read_direction};
ghost use Rattle.script_lang.specs.Words.{end_text, switch_text, zero_text, classes_text, verify_text, form_text, algorithm_text, direction_text};

use pad_steps::{Algorithm, Classes, Form, Verify};
use pad_words::Direction;
use spelled_words::{Spelled, value_of, word_of};

// whether an entry ends by itself at its greatest length
const ENDS: [Spelled<bool>; 2] = [Spelled(true, "auto"), Spelled(false, "hold")];

// the end that this word spells
#[tactic(auto, unfolding(crate::specs::Reading::read_end))]
pub fn read_end(word: &[u8]) -> Option<bool>
    ensures { result ≡ read_end word.now }
{
    value_of(&ENDS, word)
}

// the word of an end
#[tactic(auto, unfolding(crate::specs::Words::end_text))]
pub fn end_word(auto_end: bool) -> &'static str
    ensures { result.now ≡ end_text auto_end }
{
    word_of(&ENDS, auto_end)
}

// whether the PIN is kept
const SWITCHES: [Spelled<bool>; 2] = [Spelled(true, "on"), Spelled(false, "off")];

// whether the PIN is kept, by its word
#[tactic(auto, unfolding(crate::specs::Reading::read_switch))]
pub fn read_switch(word: &[u8]) -> Option<bool>
    ensures { result ≡ read_switch word.now }
{
    value_of(&SWITCHES, word)
}

// the word of whether the PIN is kept
#[tactic(auto, unfolding(crate::specs::Words::switch_text))]
pub fn switch_word(on: bool) -> &'static str
    ensures { result.now ≡ switch_text on }
{
    word_of(&SWITCHES, on)
}

// whether a first zero is replaced
const ZEROS: [Spelled<bool>; 2] = [Spelled(false, "lead"), Spelled(true, "nolead")];

// whether a first zero is replaced, by its word
#[tactic(auto, unfolding(crate::specs::Reading::read_zero))]
pub fn read_zero(word: &[u8]) -> Option<bool>
    ensures { result ≡ read_zero word.now }
{
    value_of(&ZEROS, word)
}

// the word of whether a first zero is replaced
#[tactic(auto, unfolding(crate::specs::Words::zero_text))]
pub fn zero_word(no_zero: bool) -> &'static str
    ensures { result.now ≡ zero_text no_zero }
{
    word_of(&ZEROS, no_zero)
}

// the classes of events that a session hears
const CLASSES: [Spelled<Classes>; 4] = [
    Spelled(
        Classes {
            service: false,
            execute: false,
        },
        "none",
    ),
    Spelled(
        Classes {
            service: true,
            execute: false,
        },
        "service",
    ),
    Spelled(
        Classes {
            service: false,
            execute: true,
        },
        "execute",
    ),
    Spelled(
        Classes {
            service: true,
            execute: true,
        },
        "both",
    ),
];

// the classes that this word spells
#[tactic(auto, unfolding(crate::specs::Reading::read_classes))]
pub fn read_classes(word: &[u8]) -> Option<Classes>
    ensures { result ≡ read_classes word.now }
{
    value_of(&CLASSES, word)
}

// the word of classes
#[tactic(auto, unfolding(crate::specs::Words::classes_text))]
pub fn classes_word(classes: Classes) -> &'static str
    ensures { result.now ≡ classes_text classes }
{
    word_of(&CLASSES, classes)
}

// check modes of an import
const CHECK_MODES: [Spelled<Verify>; 3] = [
    Spelled(Verify::Nothing, "none"),
    Spelled(Verify::Own, "self"),
    Spelled(Verify::Zero, "zero"),
];

// the check mode that this word spells
#[tactic(auto, unfolding(crate::specs::Reading::read_verify))]
pub fn read_verify(word: &[u8]) -> Option<Verify>
    ensures { result ≡ read_verify word.now }
{
    value_of(&CHECK_MODES, word)
}

// the word of a check mode
#[tactic(auto, unfolding(crate::specs::Words::verify_text))]
pub fn verify_word(mode: Verify) -> &'static str
    ensures { result.now ≡ verify_text mode }
{
    word_of(&CHECK_MODES, mode)
}

// forms of a PIN block
const FORMS: [Spelled<Form>; 8] = [
    Spelled(Form::Iso0, "iso0"),
    Spelled(Form::Iso1, "iso1"),
    Spelled(Form::Iso2, "iso2"),
    Spelled(Form::Iso3, "iso3"),
    Spelled(Form::Iso4, "iso4"),
    Spelled(Form::Ibm3624, "ibm3624"),
    Spelled(Form::Diebold, "diebold"),
    Spelled(Form::DieboldCo, "dieboldco"),
];

// the form that this word spells
#[tactic(auto, unfolding(crate::specs::Reading::read_form))]
pub fn read_form(word: &[u8]) -> Option<Form>
    ensures { result ≡ read_form word.now }
{
    value_of(&FORMS, word)
}

// the word of a form
#[tactic(auto, unfolding(crate::specs::Words::form_text))]
pub fn form_word(form: Form) -> &'static str
    ensures { result.now ≡ form_text form }
{
    word_of(&FORMS, form)
}

// algorithms of a crypt command
const ALGORITHMS: [Spelled<Algorithm>; 5] = [
    Spelled(Algorithm::Ecb, "ecb"),
    Spelled(Algorithm::Cbc, "cbc"),
    Spelled(Algorithm::Cfb, "cfb"),
    Spelled(Algorithm::Mac, "mac"),
    Spelled(Algorithm::Retail, "retail"),
];

// the algorithm that this word spells
#[tactic(auto, unfolding(crate::specs::Reading::read_algorithm))]
pub fn read_algorithm(word: &[u8]) -> Option<Algorithm>
    ensures { result ≡ read_algorithm word.now }
{
    value_of(&ALGORITHMS, word)
}

// the word of an algorithm
#[tactic(auto, unfolding(crate::specs::Words::algorithm_text))]
pub fn algorithm_word(algorithm: Algorithm) -> &'static str
    ensures { result.now ≡ algorithm_text algorithm }
{
    word_of(&ALGORITHMS, algorithm)
}

// directions of a crypt command
const DIRECTIONS: [Spelled<Direction>; 2] = [
    Spelled(Direction::Encrypt, "encrypt"),
    Spelled(Direction::Decrypt, "decrypt"),
];

// the direction that this word spells
#[tactic(auto, unfolding(crate::specs::Reading::read_direction))]
pub fn read_direction(word: &[u8]) -> Option<Direction>
    ensures { result ≡ read_direction word.now }
{
    value_of(&DIRECTIONS, word)
}

// the word of a direction
#[tactic(auto, unfolding(crate::specs::Words::direction_text))]
pub fn direction_word(direction: Direction) -> &'static str
    ensures { result.now ≡ direction_text direction }
{
    word_of(&DIRECTIONS, direction)
}
