//! Words of the command line that the programs share.
#![tactic(auto)]

ghost use Rattle.std.specs.Prelude.{◌≡◌};
ghost use Rattle.command_words.specs.CommandWords.{is_word, seed_of};

use std::{env, io};

/// The words of the command line, without the program's name. A word that is no text is of no form: with one there are
/// no words. None where there is want of memory.
pub fn program_words(rt: &HostRuntime) -> Option<Vec<String>> {
    match read_words(rt) {
        Ok(words) => Some(words),
        Err(fault) if fault.kind() == io::ErrorKind::OutOfMemory => None,
        Err(_) => Some(Vec::new(rt.alloc())),
    }
}

fn read_words(rt: &HostRuntime) -> io::Result<Vec<String>> {
    let mut words = Vec::new(rt.alloc());
    for word in env::args(rt)?.skip(1) {
        words.push(word)?;
    }
    Ok(words)
}

/// The word is this text.
pub fn is_word(word: &String, text: &str) -> bool
    ensures { result ≡ is_word word.now text.now }
{
    word.as_str() == text
}

/// The 32 bytes of a seed, of 64 hexadecimal digits in either case. None exactly where the text is none.
pub fn seed_of(text: &str) -> Option<[u8; 32]>
    ensures { result ≡ seed_of text.now }
{
    let mut seed = [0; 32];
    match hex::decode_to_slice(text, &mut seed) {
        Ok(()) => Some(seed),
        Err(_) => None,
    }
}
