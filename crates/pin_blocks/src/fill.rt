//! The fill words of a run.
ghost use Rattle.std.specs.Prelude.{◌≡◌, length, map};
ghost use Rattle.pin_blocks.specs.FillWords.{fill_word};
ghost use Rattle.std.specs.List.{range_with_len};

use rand_chacha::ChaCha20Rng;
use rand_core::SeedableRng;
use rand_core::utils::NextWord;

/// Writes the fill words of these numbers, from `first` on: the words of ChaCha20 (RFC 8439) with the seed as its key, of
/// stream 0, by their places from 0. It takes no memory.
pub fn fill_words(seed: &[u8; 32], first: u64, words: &mut [u32])
    ensures { words.new ≡ map (fill_word seed.now) (range_with_len first (length words.old)) }
{
    let mut generator = ChaCha20Rng::from_seed(*seed);
    generator.set_word_pos(first as u128);
    for word in words {
        *word = generator.next_word();
    }
}
