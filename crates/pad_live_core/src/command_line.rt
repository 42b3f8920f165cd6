//! The words of the command line of a live run.
ghost use Rattle.std.specs.Prelude.{◌≡◌};
ghost use Rattle.pad_live_core.specs.CommandLine.{live_seed};

use command_words::{is_word, seed_of};

/// The seed of the fill words: H of `live seed H`, and 32 zero bytes of `live`. None exactly where the words are neither.
pub fn live_seed(words: &[String]) -> Option<[u8; 32]>
    ensures { result ≡ live_seed words.now }
{
    match words {
        [live] if is_word(live, "live") => Some([0; 32]),
        [live, word, seed] if is_word(live, "live") && is_word(word, "seed") => {
            seed_of(seed.as_str())
        }
        _ => None,
    }
}
