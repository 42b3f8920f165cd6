ghost use Rattle.std.specs.Prelude.{◌≡◌, ◌++◌, ℕ, List, ◌<◌, map, take, drop, slice_index};
ghost use Rattle.std.specs.List.{All};
ghost use Rattle.des_core.specs.Bits.{bits_of};
ghost use Rattle.pad_words.specs.Bytes.{exclusive_or};
ghost use Rattle.des_core.specs.Des.{cipher_function, preoutput};
ghost use Rattle.des_core.specs.KeptKeys.{group_at, AreGroups, key_bits, IsKept};
ghost use Rattle.des_core.specs.Rounds.{IsAfterRound};

use crate::joined_tables::joined;
use crate::key_schedule::{RoundKey, RoundKeys};

/// Four groups of six bits of half a block, each in a byte of its own, by the exclusive or with those of a round key.
#[inline(always)]
fn meet(half: u32, groups: u32) -> [u8; 4]
    requires { AreGroups groups }
    ensures bits { (byte : ℕ) → byte < 4 →
        bits_of 6 (slice_index result byte) ≡ exclusive_or (group_at half byte) (group_at groups byte) }
    ensures bound { All (λ six. six < 64) result }
{
    (half & 0x3f3f_3f3f ^ groups).to_le_bytes()
}

/// The cipher function of half a block and a round key.
///
/// The entries have no bit in common, so that the or of them is their exclusive or. With one of the two for each four of
/// them the compiler keeps two chains of four steps, which run side by side, where it would make one of eight.
#[inline(always)]
fn cipher_function(half: u32, key: RoundKey) -> u32
    requires { IsKept key }
    ensures { bits_of 32 result ≡ cipher_function (bits_of 32 half) (key_bits key) }
{
    let [s1, s7, s5, s3] = meet(half.rotate_left(5), key.odd);
    let [s8, s6, s4, s2] = meet(half.rotate_left(1), key.even);
    let odd = joined(1, s1) ^ joined(7, s7) ^ joined(5, s5) ^ joined(3, s3);
    let even = joined(8, s8) | joined(6, s6) | joined(4, s4) | joined(2, s2);
    odd ^ even
}

/// The two halves of a permuted block in the rounds.
#[derive(Clone, Copy)]
struct Halves {
    left: u32,
    right: u32,
}

impl Halves {
    #[inline(always)]
    fn of(block: u64) -> Halves
        ensures left { bits_of 32 result.left ≡ take 32 (bits_of 64 block) }
        ensures right { bits_of 32 result.right ≡ drop 32 (bits_of 64 block) }
    {
        Halves {
            left: (block >> 32) as u32,
            right: (block & 0xffff_ffff) as u32,
        }
    }

    /// The halves after a round.
    #[inline(always)]
    fn round(self, key: RoundKey) -> Halves
        requires { IsKept key }
        ensures { IsAfterRound self result key }
    {
        Halves {
            left: self.right,
            right: self.left ^ cipher_function(self.right, key),
        }
    }

    /// The two halves as one block, the right half first.
    #[inline(always)]
    fn exchanged(self) -> u64
        ensures { bits_of 64 result ≡ bits_of 32 self.right ++ bits_of 32 self.left }
    {
        (self.right as u64) << 32 | self.left as u64
    }
}

/// A permuted block after a round for each key.
pub fn preoutput(keys: &RoundKeys, block: u64) -> u64
    ensures { bits_of 64 result ≡ preoutput keys.now (bits_of 64 block) }
{
    let mut halves = Halves::of(block);
    for key in &keys.keys {
        halves = halves.round(*key);
    }
    halves.exchanged()
}

/// The halves of three permuted blocks, whose rounds take turns.
#[derive(Clone, Copy)]
struct ThreeHalves {
    first: Halves,
    second: Halves,
    third: Halves,
}

impl ThreeHalves {
    /// The halves of each block after a round.
    #[inline(always)]
    fn round(self, key: RoundKey) -> ThreeHalves
        requires { IsKept key }
        ensures first { IsAfterRound self.first result.first key }
        ensures second { IsAfterRound self.second result.second key }
        ensures third { IsAfterRound self.third result.third key }
    {
        ThreeHalves {
            first: self.first.round(key),
            second: self.second.round(key),
            third: self.third.round(key),
        }
    }
}

/// Three permuted blocks, each after a round for each key. None waits for another, so that the processor looks up the words
/// of one while those of the others are on their way.
///
/// A turn of the loop is two rounds, after which each half is where it was, and no register is moved.
pub fn preoutputs(keys: &RoundKeys, blocks: [u64; 3]) -> [u64; 3]
    ensures first { bits_of 64 (slice_index result 0) ≡ preoutput keys.now (bits_of 64 (slice_index blocks 0)) }
    ensures second { bits_of 64 (slice_index result 1) ≡ preoutput keys.now (bits_of 64 (slice_index blocks 1)) }
    ensures third { bits_of 64 (slice_index result 2) ≡ preoutput keys.now (bits_of 64 (slice_index blocks 2)) }
{
    let [first, second, third] = blocks;
    let mut halves = ThreeHalves {
        first: Halves::of(first),
        second: Halves::of(second),
        third: Halves::of(third),
    };
    for i in 0..8 {
        halves = halves.round(keys.keys[2 * i]);
        halves = halves.round(keys.keys[2 * i + 1]);
    }
    [
        halves.first.exchanged(),
        halves.second.exchanged(),
        halves.third.exchanged(),
    ]
}
