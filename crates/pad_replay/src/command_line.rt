// The words of the command line.
ghost use Rattle.std.specs.Prelude.{◌≡◌, ◌≤◌, IfSome, is_some};
ghost use Rattle.std.specs.Option.{option_copied, option_map};
ghost use Rattle.pad_replay.specs.CommandLine.{asked_behind, asked_by, asked_by_one, generated_behind, is_form, path_in, path_of, rounds_of};
ghost use Rattle.pad_replay.specs.Asked.{HasFewRounds, asked_of};

use command_words::{is_word, seed_of};
use script_lang::read_number;

/// What the words ask for.
#[derive(Clone, Copy)]
pub enum Request<'w> {
    /// The replay of a script: the path of the store's file, if it has one, and the seed of the fill words.
    Replay(Option<&'w str>, [u8; 32]),
    /// The replay of the generated script of so many rounds, 1 to 5,000.
    Generated(u16),
}

/// The path of the disk's file: P of the words `replay store P` and `replay store P seed H`, where it is not empty. None
/// exactly where the words are no form with a path.
pub fn store_path(words: &[String]) -> Option<&str>
    ensures { option_copied result ≡ path_in words.now }
{
    match request_of(words)? {
        Request::Replay(path, _) => path,
        Request::Generated(_) => None,
    }
}

/// What the words ask for. None exactly where they are none of the forms.
pub fn request_of(words: &[String]) -> Option<Request<'_>>
    ensures asked { option_map asked_of result ≡ asked_by words.now }
    ensures form { is_some result ≡ is_form words.now }
    ensures few { IfSome result HasFewRounds }
{
    match words {
        [word, rest @ ..] if is_word(word, "replay") => request_behind(rest),
        [word, rest @ ..] if is_word(word, "gen") => generated_behind(rest),
        _ => None,
    }
}

// What the words behind `gen` ask for.
fn generated_behind(words: &[String]) -> Option<Request<'_>>
    ensures asked { option_map asked_of result ≡ generated_behind words.now }
    ensures few { IfSome result HasFewRounds }
{
    match words {
        [rounds] => Some(Request::Generated(rounds_of(rounds.as_str())?)),
        _ => None,
    }
}

// A number of rounds, 1 to 5,000, without a leading zero.
fn rounds_of(text: &str) -> Option<u16>
    ensures rounds { result ≡ rounds_of text.now }
    ensures few { IfSome result (λ rounds. rounds ≤ 5000) }
{
    let rounds = read_number(1, 5000, text.as_bytes())?;
    Some(rounds as u16)
}

// What the words behind `replay` ask for.
fn request_behind(words: &[String]) -> Option<Request<'_>>
    ensures asked { option_map asked_of result ≡ asked_behind words.now }
    ensures few { IfSome result HasFewRounds }
{
    match words {
        [] => Some(Request::Replay(None, [0; 32])),
        [word, value] => request_by_one(word, value.as_str()),
        [first, path, second, seed] if is_word(first, "store") && is_word(second, "seed") => {
            let seed = seed_of(seed.as_str())?;
            Some(Request::Replay(Some(path_of(path.as_str())?), seed))
        }
        _ => None,
    }
}

// What one word and its value behind `replay` ask for.
fn request_by_one<'w>(word: &String, value: &'w str) -> Option<Request<'w>>
    ensures asked { option_map asked_of result ≡ asked_by_one word.now value.now }
    ensures few { IfSome result HasFewRounds }
{
    if is_word(word, "store") {
        return Some(Request::Replay(Some(path_of(value)?), [0; 32]));
    }
    if is_word(word, "seed") {
        return Some(Request::Replay(None, seed_of(value)?));
    }
    None
}

// A path, where it is not empty.
fn path_of(text: &str) -> Option<&str>
    ensures { option_copied result ≡ path_of text.now }
{
    if text.is_empty() { None } else { Some(text) }
}
