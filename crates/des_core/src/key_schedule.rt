ghost use Rattle.std.specs.Prelude.{◌≡◌, ◌+◌, ◌-◌, ◌*◌, ◌^◌, ◌<◌, ◌≤◌, map, take, drop};
ghost use Rattle.des_core.specs.Bits.{bits_of};
ghost use Rattle.des_core.specs.Des.{left_rotation, round_keys};
ghost use Rattle.des_core.specs.KeptKeys.{key_bits, IsKept};

use crate::permutation::permute;
use crate::tables::{LEFT_SHIFTS, PERMUTED_CHOICE_1, PERMUTED_CHOICE_2};
use std::marker::Model;

/// 28 bits rotated to the left.
fn rotate_left(half: u64, count: u32) -> u64
    requires small { half < 2 ^ 28 }
    requires short { count ≤ 28 }
    ensures bits { bits_of 28 result ≡ left_rotation count (bits_of 28 half) }
    ensures bound { result < 2 ^ 28 }
{
    (half << count | half >> (28 - count)) & 0xfff_ffff
}

/// The sixteen round keys of a key, each the lowest 48 bits of a word.
pub fn round_keys(key: u64) -> [u64; 16]
    ensures { map (bits_of 48) result ≡ round_keys (bits_of 64 key) }
{
    let chosen = permute(&PERMUTED_CHOICE_1, 64, key);
    let mut c = chosen >> 28;
    let mut d = chosen & 0xfff_ffff;
    let mut keys = [0u64; 16];
    for i in 0..16 {
        let count = LEFT_SHIFTS[i] as u32;
        c = rotate_left(c, count);
        d = rotate_left(d, count);
        keys[i] = permute(&PERMUTED_CHOICE_2, 56, c << 28 | d);
    }
    keys
}

/// A round key as the rounds take it: its eight groups of six bits, each in a byte of its own below two zeros.
#[derive(Clone, Copy)]
pub struct RoundKey {
    /// The groups that meet S1, S7, S5 and S3, from the least significant byte on.
    pub odd: u32,

    /// The groups that meet S8, S6, S4 and S2, from the least significant byte on.
    pub even: u32,
}

/// The group of six bits that meets a selection function, S1 to S8, of a round key of 48 bits.
fn group_of(key: u64, number: u32) -> u8
    requires first { 1 ≤ number }
    requires last { number ≤ 8 }
    ensures bits { bits_of 6 result ≡ take 6 (drop (6 * (number - 1)) (bits_of 48 key)) }
    ensures bound { result < 64 }
{
    (key >> (48 - 6 * number) & 63) as u8
}

/// A round key of 48 bits, its groups apart.
fn kept_of(key: u64) -> RoundKey
    ensures bits { key_bits result ≡ bits_of 48 key }
    ensures kept { IsKept result }
{
    let odd = [
        group_of(key, 1),
        group_of(key, 7),
        group_of(key, 5),
        group_of(key, 3),
    ];
    let even = [
        group_of(key, 8),
        group_of(key, 6),
        group_of(key, 4),
        group_of(key, 2),
    ];
    RoundKey {
        odd: u32::from_le_bytes(odd),
        even: u32::from_le_bytes(even),
    }
}

/// Sixteen round keys in the order of their use, seen as lists of 48 bits.
#[derive(Drop)]
pub struct RoundKeys {
    pub keys: [RoundKey; 16],
}

impl Model for RoundKeys {
    ghost use Rattle.std.specs.Prelude.{ℕ, List, map};
    ghost use Rattle.des_core.specs.KeptKeys.{key_bits, AreKept};

    ghost Value = { List (List ℕ) };

    ghost view = { λ r. map key_bits r.keys };

    ghost invariant = { λ r. AreKept r.keys };
}

impl RoundKeys {
    /// Round keys in the order of their use, each the lowest 48 bits of a word.
    pub fn new(keys: &[u64; 16]) -> RoundKeys
        ensures { result ≡ map (bits_of 48) keys.now }
    {
        let mut kept = [RoundKey { odd: 0, even: 0 }; 16];
        for i in 0..16 {
            kept[i] = kept_of(keys[i]);
        }
        RoundKeys { keys: kept }
    }
}
