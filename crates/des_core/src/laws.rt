//! Laws of the cipher. Each is a function with nothing to do: that its contract is proved is the law.
ghost use Rattle.std.specs.Prelude.{◌≡◌, ◌<◌, ℕ, List, length, All};
ghost use Rattle.des_core.specs.KeyTables.{permuted_choice_1, permuted_choice_2, left_shifts};
ghost use Rattle.des_core.specs.Bits.{IsBlock};
ghost use Rattle.pad_words.specs.Bytes.{exclusive_or};
ghost use Rattle.des_core.specs.Des.{des_bytes, des_back_bytes, des_number};
ghost use Rattle.des_core.specs.TripleDes.{tdea_bytes, tdea_back_bytes};

use crate::tables::{LEFT_SHIFTS, PERMUTED_CHOICE_1, PERMUTED_CHOICE_2};
use pad_words::Block;

/// The tables by which the code makes round keys are the printed ones of the definition, entry by entry. The check computes
/// both sides, so that an entry that is changed on one side alone is refused here. (IP, its inverse, E, P and S1 to S8 stand
/// in the definition alone: `joined`, the rounds and the exchanges of bits are proved against it.)
pub fn tables_are_those_of_the_standard()
    ensures permuted_choice_1 { PERMUTED_CHOICE_1 ≡ permuted_choice_1 }
    ensures permuted_choice_2 { PERMUTED_CHOICE_2 ≡ permuted_choice_2 }
    ensures left_shifts { LEFT_SHIFTS ≡ left_shifts }
{}

/// For every key, deciphering undoes enciphering.
pub fn decryption_undoes_encryption(key: Block, x: Block)
    ensures { des_back_bytes key.0 (des_bytes key.0 x.0) ≡ x.0 }
{}

/// For every key, enciphering undoes deciphering.
pub fn encryption_undoes_decryption(key: Block, x: Block)
    ensures { des_bytes key.0 (des_back_bytes key.0 x.0) ≡ x.0 }
{}

/// Under a key of eight bytes triple DES is DES, and gives eight bytes.
pub fn one_key_is_single_des()
    ensures encrypted { (key block : List ℕ) → length key ≡ 8 → length block ≡ 8 → tdea_bytes key block ≡ des_bytes key block }
    ensures decrypted { (key block : List ℕ) → length key ≡ 8 → length block ≡ 8 → tdea_back_bytes key block ≡ des_back_bytes key block }
    ensures eight { (key block : List ℕ) → length (des_bytes key block) ≡ 8 }
    ensures eight_back { (key block : List ℕ) → length (des_back_bytes key block) ≡ 8 }
{}

/// For every key, whatever its length, decrypting undoes encrypting.
pub fn triple_decryption_undoes_encryption(key: &[u8], x: Block)
    ensures { tdea_back_bytes key.now (tdea_bytes key.now x.0) ≡ x.0 }
{}

/// For every key, whatever its length, triple DES gives blocks, and decrypting undoes encrypting.
pub fn triple_encryption_of_blocks()
    ensures gives_a_block { (key block : List ℕ) → IsBlock (tdea_bytes key block) }
    ensures undone { (key block : List ℕ) → IsBlock block → tdea_back_bytes key (tdea_bytes key block) ≡ block }
{}

/// Under one key, whatever its length, two blocks that encrypt to the same are the same.
pub fn triple_encryption_tells_blocks_apart()
    ensures { (key first second : List ℕ) → length first ≡ 8 → length second ≡ 8 → All (λ byte. byte < 256) first → All (λ byte. byte < 256) second → tdea_bytes key first ≡ tdea_bytes key second → first ≡ second }
{}

/// A second exclusive or with the same list undoes the first, and lists of one length give one of that length.
pub fn exclusive_or_undoes_itself()
    ensures long { (xs ys : List ℕ) → length xs ≡ length ys → length (exclusive_or xs ys) ≡ length xs }
    ensures undone { (xs ys : List ℕ) → length xs ≡ length ys → exclusive_or (exclusive_or xs ys) ys ≡ xs }
{}

/// Four published answers, computed by the definition alone, with no code: key, block and answer as numbers of 64 bits.
pub fn known_answers()
    ensures worked_example { des_number 0x133457799BBCDFF1 0x0123456789ABCDEF ≡ 0x85E813540F0AB405 }
    ensures answer_of_zeros { des_number 0x0E329232EA6D0D73 0x8787878787878787 ≡ 0x0000000000000000 }
    ensures key_and_block_of_zeros { des_number 0 0 ≡ 0x8CA64DE9C1B123A7 }

    // the first eight letters of "Now is the time for all ", the text of FIPS 81's examples
    ensures text_of_fips_81 { des_number 0x0123456789ABCDEF 0x4E6F772069732074 ≡ 0x3FA40E8A984D4815 }
{}
