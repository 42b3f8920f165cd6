//! Laws of the modes and of the codes. Each is a function that calls the laws of DES alone: that its contract is proved is the law.
ghost use Rattle.std.specs.Prelude.{◌≡◌, ℕ, List, All, length};
ghost use Rattle.des_core.specs.Bits.{IsBlock};
ghost use Rattle.des_core.specs.Des.{des_back_bytes, des_bytes};
ghost use Rattle.des_core.specs.TripleDes.{tdea_bytes, tdea_back_bytes};
ghost use Rattle.cbc_mac.specs.Macs.{mac, retail};
ghost use Rattle.cbc_mac.specs.Modes.{ecb, cbc, cbc_back};

use des_core::laws::{
    exclusive_or_undoes_itself, one_key_is_single_des, triple_encryption_of_blocks,
};

/// For every key, whatever its length, decryption in ECB undoes encryption of whole blocks.
pub fn ecb_decryption_undoes_encryption()
    ensures { (key : List ℕ) (blocks : List (List ℕ)) → All IsBlock blocks → ecb (tdea_back_bytes key) (ecb (tdea_bytes key) blocks) ≡ blocks }
{
    triple_encryption_of_blocks();
}

/// For every key, whatever its length, and every start value, decryption in CBC undoes encryption of whole blocks.
pub fn cbc_decryption_undoes_encryption()
    ensures { (key start : List ℕ) (blocks : List (List ℕ)) → IsBlock start → All IsBlock blocks → cbc_back (tdea_back_bytes key) start (cbc (tdea_bytes key) start blocks) ≡ blocks }
{
    exclusive_or_undoes_itself();
    triple_encryption_of_blocks();
}

/// Under keys of eight bytes it is all one whether a code is said by DES or by triple DES.
pub fn codes_by_triple_des()
    ensures single { (key message : List ℕ) (pad : ℕ) → length key ≡ 8 → mac tdea_bytes key message pad ≡ mac des_bytes key message pad }
    ensures retail { (left right message : List ℕ) (pad : ℕ) → length left ≡ 8 → length right ≡ 8 → retail tdea_bytes tdea_back_bytes left right message pad ≡ retail des_bytes des_back_bytes left right message pad }
{
    exclusive_or_undoes_itself();
    one_key_is_single_des();
}
