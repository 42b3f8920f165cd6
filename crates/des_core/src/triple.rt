ghost use Rattle.std.specs.Bool.{OnTrue};
ghost use Rattle.std.specs.Prelude.{◌≡◌, ◌+◌, ◌≤◌, length, map, take, drop, is_ok, IfOk};

use crate::cipher::Des;
use crate::permuted::PermutedBlock;
use pad_words::Block;
use std::marker::Model;

/// A key of another length than its use asks for.
#[derive(Clone, Copy, Debug, PartialEq, Eq)]
pub struct BadLength;

/// The eight bytes from `at` on as a block.
pub fn block_at(bytes: &[u8], at: usize) -> Block
    requires { at + 8 ≤ length bytes.now }
    ensures { result.0 ≡ take 8 (drop at bytes.now) }
{
    let mut block = [0u8; 8];
    block.copy_from_slice(&bytes[at..at + 8]);
    Block(block)
}

/// Triple DES under one key (FIPS 46-3, TDEA), seen as the key that was given. The round keys of K1, K2 and K3 are made
/// once, by `new`.
#[derive(Drop)]
pub struct Tdea {
    key_length: usize,
    first: Des,
    second: Des,
    third: Des,
}

impl Model for Tdea {
    ghost use Rattle.std.specs.Prelude.{ℕ, List, take, ◌++◌};
    ghost use Rattle.des_core.specs.TripleDes.{AreKeysOf};

    ghost Value = { List ℕ };

    ghost view = { λ t. take t.key_length (t.first ++ t.second ++ t.third) };

    ghost invariant = { λ t. AreKeysOf (take t.key_length (t.first ++ t.second ++ t.third)) t.first t.second t.third };
}

impl Tdea {
    ghost use Rattle.des_core.specs.TripleDes.{tdea_bytes, tdea_back_bytes};
    ghost use Rattle.pad_words.specs.KeyLengths.{is_key_length};

    /// Under 16 bytes K3 is K1, under 8 all three are equal.
    pub fn new(key: &[u8]) -> Result<Tdea, BadLength>
        ensures value { IfOk result (λ t. t ≡ key.now) }
        ensures accepted { is_ok result ≡ is_key_length (length key.now) }
    {
        let key_length = key.len();
        let (second_at, third_at) = match key_length {
            8 => (0, 0),
            16 => (8, 0),
            24 => (8, 16),
            _ => return Err(BadLength),
        };
        Ok(Tdea {
            key_length,
            first: Des::new(block_at(key, 0)),
            second: Des::new(block_at(key, second_at)),
            third: Des::new(block_at(key, third_at)),
        })
    }

    /// Whether K1, K2 and K3 are the one key of eight bytes, so that two of the three steps undo each other. This asks for
    /// the length of the key and for none of its bits.
    fn has_one_key(&self) -> bool
        ensures { OnTrue result (length self.now ≤ 8) }
    {
        self.key_length == 8
    }

    /// A block in the order of the rounds enciphered under K1, deciphered under K2 and enciphered under K3.
    pub fn encrypt_permuted(&self, x: &PermutedBlock) -> PermutedBlock
        ensures { result ≡ tdea_bytes self.now x.now }
    {
        if self.has_one_key() {
            return self.first.encrypt_permuted(x);
        }
        let first = self.first.encrypt_permuted(x);
        let second = self.second.decrypt_permuted(&first);
        self.third.encrypt_permuted(&second)
    }

    /// A block in the order of the rounds deciphered under K3, enciphered under K2 and deciphered under K1.
    pub fn decrypt_permuted(&self, x: &PermutedBlock) -> PermutedBlock
        ensures { result ≡ tdea_back_bytes self.now x.now }
    {
        if self.has_one_key() {
            return self.first.decrypt_permuted(x);
        }
        let third = self.third.decrypt_permuted(x);
        let second = self.second.encrypt_permuted(&third);
        self.first.decrypt_permuted(&second)
    }

    /// Three blocks in the order of the rounds, side by side: each enciphered under K1, deciphered under K2 and enciphered
    /// under K3.
    pub fn encrypt_three(&self, blocks: &[PermutedBlock; 3]) -> [PermutedBlock; 3]
        ensures { result ≡ map (tdea_bytes self.now) blocks.now }
    {
        if self.has_one_key() {
            return self.first.encrypt_three(blocks);
        }
        let first = self.first.encrypt_three(blocks);
        let second = self.second.decrypt_three(&first);
        self.third.encrypt_three(&second)
    }

    /// Three blocks in the order of the rounds, side by side: each deciphered under K3, enciphered under K2 and deciphered
    /// under K1.
    pub fn decrypt_three(&self, blocks: &[PermutedBlock; 3]) -> [PermutedBlock; 3]
        ensures { result ≡ map (tdea_back_bytes self.now) blocks.now }
    {
        if self.has_one_key() {
            return self.first.decrypt_three(blocks);
        }
        let third = self.third.decrypt_three(blocks);
        let second = self.second.encrypt_three(&third);
        self.first.decrypt_three(&second)
    }

    /// A block enciphered under K1, deciphered under K2 and enciphered under K3.
    pub fn encrypt(&self, x: Block) -> Block
        ensures { result.0 ≡ tdea_bytes self.now x.0 }
    {
        self.encrypt_permuted(&PermutedBlock::new(x)).block()
    }

    /// A block deciphered under K3, enciphered under K2 and deciphered under K1.
    pub fn decrypt(&self, x: Block) -> Block
        ensures { result.0 ≡ tdea_back_bytes self.now x.0 }
    {
        self.decrypt_permuted(&PermutedBlock::new(x)).block()
    }
}
