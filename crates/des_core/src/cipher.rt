ghost use Rattle.std.specs.Prelude.{◌≡◌, map};
ghost use Rattle.des_core.specs.Bits.{bits_of, bits_of_bytes};
ghost use Rattle.des_core.specs.Des.{des_bytes, des_back_bytes};

use crate::key_schedule::{RoundKeys, round_keys};
use crate::permuted::PermutedBlock;
use pad_words::Block;
use std::marker::Model;

fn word_of(block: Block) -> u64
    ensures { bits_of 64 result ≡ bits_of_bytes block.0 }
{
    u64::from_be_bytes(block.0)
}

/// DES under one key, seen as its eight bytes. The round keys are made once, by `new`. Of each byte of the key the lowest
/// bit, its parity, is not used.
#[derive(Drop)]
pub struct Des {
    key: [u8; 8],
    forward: RoundKeys,
    backward: RoundKeys,
}

impl Model for Des {
    ghost use Rattle.std.specs.Prelude.{ℕ, List};
    ghost use Rattle.des_core.specs.KeptKeys.{AreRoundKeysOf};

    ghost Value = { List ℕ };

    ghost view = { λ des. des.key };

    ghost invariant = { λ des. AreRoundKeysOf des.key des.forward des.backward };
}

impl Des {
    /// The cipher under this key.
    pub fn new(key: Block) -> Des
        ensures { result ≡ key.0 }
    {
        let keys = round_keys(word_of(key));
        let mut reversed = keys;
        reversed.reverse();
        let key = key.0;
        Des {
            key,
            forward: RoundKeys::new(&keys),
            backward: RoundKeys::new(&reversed),
        }
    }

    /// A block in the order of the rounds enciphered.
    pub fn encrypt_permuted(&self, x: &PermutedBlock) -> PermutedBlock
        ensures { result ≡ des_bytes self.now x.now }
    {
        x.after(&self.forward)
    }

    /// A block in the order of the rounds deciphered.
    pub fn decrypt_permuted(&self, x: &PermutedBlock) -> PermutedBlock
        ensures { result ≡ des_back_bytes self.now x.now }
    {
        x.after(&self.backward)
    }

    /// Three blocks in the order of the rounds enciphered, side by side.
    pub fn encrypt_three(&self, blocks: &[PermutedBlock; 3]) -> [PermutedBlock; 3]
        ensures { result ≡ map (des_bytes self.now) blocks.now }
    {
        PermutedBlock::three_after(blocks, &self.forward)
    }

    /// Three blocks in the order of the rounds deciphered, side by side.
    pub fn decrypt_three(&self, blocks: &[PermutedBlock; 3]) -> [PermutedBlock; 3]
        ensures { result ≡ map (des_back_bytes self.now) blocks.now }
    {
        PermutedBlock::three_after(blocks, &self.backward)
    }

    /// A block enciphered.
    pub fn encrypt(&self, x: Block) -> Block
        ensures { result.0 ≡ des_bytes self.now x.0 }
    {
        self.encrypt_permuted(&PermutedBlock::new(x)).block()
    }

    /// A block deciphered: what `encrypt` gives is turned back.
    pub fn decrypt(&self, x: Block) -> Block
        ensures { result.0 ≡ des_back_bytes self.now x.0 }
    {
        self.decrypt_permuted(&PermutedBlock::new(x)).block()
    }
}

/// A block enciphered by DES, under a key for this block alone.
pub fn des_encrypt(key: Block, x: Block) -> Block
    ensures { result.0 ≡ des_bytes key.0 x.0 }
{
    Des::new(key).encrypt(x)
}

/// A block deciphered by DES: what `des_encrypt` gives is turned back.
pub fn des_decrypt(key: Block, x: Block) -> Block
    ensures { result.0 ≡ des_back_bytes key.0 x.0 }
{
    Des::new(key).decrypt(x)
}
