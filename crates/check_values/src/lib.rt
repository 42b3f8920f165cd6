//! What a key value gives: its cipher, and its check value.
#![tactic(auto)]

ghost use Rattle.std.specs.Prelude.{◌≡◌, take};
ghost use Rattle.check_values.specs.CheckValues.{check_value};
ghost use Rattle.des_core.specs.TripleDes.{tdea_bytes};
ghost use Rattle.pad_words.specs.Bytes.{zero_block};

use des_core::Tdea;
use key_attributes::KeyValue;
use pad_steps::Verify;
use pad_words::Block;

#[cfg(test)]
mod tests;

/// Triple DES under a key (FIPS 46-3).
pub fn cipher_of(key: &KeyValue) -> Tdea
    ensures { result ≡ key.now }
{
    match Tdea::new(key.bytes()) {
        Ok(cipher) => cipher,
        // A key value has 8, 16 or 24 bytes.
        Err(_) => unreachable!(),
    }
}

/// The key check value in a mode: the first 3 bytes of a block encrypted under the key. The block is the key's own first
/// 8 bytes (KCVSELF) or eight zero bytes (KCVZERO). None where none is asked for (KCVNONE).
pub fn check_value(value: &KeyValue, mode: Verify) -> Option<[u8; 3]>
    ensures { result ≡ check_value tdea_bytes mode value.now }
{
    let plain = match mode {
        Verify::Nothing => return None,
        Verify::Own => first_block(value),
        Verify::Zero => Block([0; 8]),
    };
    Some(first_three(cipher_of(value).encrypt(plain)))
}

// The first 8 bytes of a key value.
fn first_block(value: &KeyValue) -> Block
    ensures { result.0 ≡ take 8 value.now }
{
    let mut block = [0; 8];
    block.copy_from_slice(&value.bytes()[..8]);
    Block(block)
}

// The first 3 bytes of a block.
fn first_three(block: Block) -> [u8; 3]
    ensures { result ≡ take 3 block.0 }
{
    let [first, second, third, ..] = block.0;
    [first, second, third]
}
