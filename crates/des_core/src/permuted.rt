ghost use Rattle.std.specs.Prelude.{◌≡◌, map};
ghost use Rattle.pad_words.specs.Bytes.{exclusive_or};
ghost use Rattle.des_core.specs.Bits.{bits_of_bytes, bytes_of_bits};
ghost use Rattle.des_core.specs.Des.{output_block};

use crate::key_schedule::RoundKeys;
use crate::permutation::{permute_finally, permute_initially};
use crate::rounds::{preoutput, preoutputs};
use pad_words::Block;
use std::marker::Model;

/// A block in the order in which the rounds take it, seen as its eight bytes.
///
/// Where a block goes through one cipher after another, or through an exclusive or between them, it stays in this order: the
/// initial permutation is made once, by `new`, and the final one once, by `block`.
#[derive(Drop)]
pub struct PermutedBlock {
    word: u64,
}

impl Model for PermutedBlock {
    ghost use Rattle.std.specs.Prelude.{ℕ, List};
    ghost use Rattle.des_core.specs.PermutedBlocks.{block_of_permuted};

    ghost Value = { List ℕ };

    ghost view = { λ p. block_of_permuted p.word };
}

impl PermutedBlock {
    ghost use Rattle.des_core.specs.PermutedBlocks.{block_of_permuted};

    /// A block put into the order of the rounds.
    pub fn new(block: Block) -> PermutedBlock
        ensures { result ≡ block.0 }
    {
        PermutedBlock {
            word: permute_initially(u64::from_be_bytes(block.0)),
        }
    }

    /// The block in the order of its bytes.
    pub fn block(&self) -> Block
        ensures { result.0 ≡ self.now }
    {
        Block(permute_finally(self.word).to_be_bytes())
    }

    /// The word, with the bits in the order of the rounds.
    fn word(&self) -> u64
        ensures { block_of_permuted result ≡ self.now }
    {
        self.word
    }

    /// The exclusive or of two blocks.
    pub fn exclusive_or(&self, other: &PermutedBlock) -> PermutedBlock
        ensures { result ≡ exclusive_or self.now other.now }
    {
        PermutedBlock {
            word: self.word ^ other.word,
        }
    }

    /// The output block for round keys in the order of their use.
    pub fn after(&self, keys: &RoundKeys) -> PermutedBlock
        ensures { result ≡ bytes_of_bits 8 (output_block keys.now (bits_of_bytes self.now)) }
    {
        PermutedBlock {
            word: preoutput(keys, self.word),
        }
    }

    /// The output blocks of three blocks at once, for round keys in the order of their use.
    pub fn three_after(blocks: &[PermutedBlock; 3], keys: &RoundKeys) -> [PermutedBlock; 3]
        ensures { result ≡ map (λ block. bytes_of_bits 8 (output_block keys.now (bits_of_bytes block))) blocks.now }
    {
        let words = [blocks[0].word(), blocks[1].word(), blocks[2].word()];
        let [first, second, third] = preoutputs(keys, words);
        [
            PermutedBlock { word: first },
            PermutedBlock { word: second },
            PermutedBlock { word: third },
        ]
    }
}
