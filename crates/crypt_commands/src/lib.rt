//! The command CRYPT: bytes are encrypted, decrypted or authenticated.
#![tactic(auto)]

ghost use Rattle.std.specs.Prelude.{◌≡◌, ◌≢◌, ◌%◌, IfErr, IfOk, OnOk, false, is_some, length, true};
ghost use Rattle.std.specs.Option.{option_copied};
ghost use Rattle.cbc_mac.specs.Modes.{padded};
ghost use Rattle.cbc_mac.specs.Macs.{code_of, is_mac_key_length};
ghost use Rattle.crypt_commands.specs.Crypts.{crypt_out, padded_to, sealing_key, start_block};
ghost use Rattle.crypt_commands.specs.Faults.{AnswersBytes, IsFault, crypt_fault, wrong_length, wrong_mac_key};
ghost use Rattle.des_core.specs.TripleDes.{tdea_back_bytes, tdea_bytes};
ghost use Rattle.pad_steps.specs.declared.commands.Algorithm.TheVariants.{Cfb};

use cbc_mac::laws::codes_by_triple_des;
use cbc_mac::{Mac, MacKind, cbc, ecb};
use check_values::cipher_of;
use key_attributes::KeyValue;
use pad_steps::{Algorithm, CryptRequest, Start};
use pad_words::{Block, Direction, NoMemory, Octets};
use std::alloc::Global;

mod jobs;

pub use jobs::{CryptDone, CryptJob};

#[cfg(test)]
mod tests;

/// What CRYPT gives: bytes, or an authentication code of eight bytes.
#[derive(Drop)]
pub enum CryptOut {
    Bytes(Octets),
    Mac(Block),
}

/// Why CRYPT gives nothing.
#[derive(Clone, Copy, Debug, PartialEq, Eq)]
pub enum CryptFault {
    /// The key of an authentication code has another length: 8 bytes by one key, 16 by two.
    InvalidKeyLength,
    /// There are no bytes, or bytes to decrypt are no whole blocks of 8.
    LengthError,
    /// Memory was wanting.
    NoMemory,
}

/// The bytes of a request encrypted or decrypted (FIPS 81), or their authentication code (in the manner of ANSI X9.9 and
/// X9.19), under the key. `start_key` is the key under which the start value is sealed, where it is. Bytes to encrypt or
/// to authenticate are padded on the right to whole blocks.
pub fn run_crypt(
    alloc: Global,
    request: &CryptRequest,
    key: &KeyValue,
    start_key: Option<&KeyValue>,
) -> Result<CryptOut, CryptFault>
    requires submitted { request.now.algorithm ≢ Cfb }
    requires sealed { is_some start_key ≡ is_some (sealing_key request.now.start) }
    ensures fault { IsFault (crypt_fault request.now (length key.now)) result }
    ensures memory { IfErr result (λ fault. fault ≡ CryptFault.NoMemory → AnswersBytes request.now (length key.now)) }
    ensures out { IfOk result (λ out. out ≡ crypt_out tdea_bytes tdea_back_bytes request.now request.now.algorithm key.now (start_block tdea_bytes tdea_back_bytes request.now.start (option_copied start_key.entry))) }
{
    if has_wrong_key(request.algorithm, key) {
        return Err(CryptFault::InvalidKeyLength);
    }
    if has_wrong_length(request.direction, request.body.items()) {
        return Err(CryptFault::LengthError);
    }
    codes_by_triple_des();
    match request.algorithm {
        Algorithm::Mac => Ok(CryptOut::Mac(code(MacKind::Single, key, request))),
        Algorithm::Retail => Ok(CryptOut::Mac(code(MacKind::Retail, key, request))),
        Algorithm::Ecb => {
            let mut bytes = whole_blocks(alloc, request)?;
            ecb(&cipher_of(key), request.direction, &mut bytes);
            Ok(CryptOut::Bytes(Octets::of(bytes)))
        }
        Algorithm::Cbc => {
            let mut bytes = whole_blocks(alloc, request)?;
            let start = start_value(&request.start, start_key);
            cbc(&cipher_of(key), request.direction, start, &mut bytes);
            Ok(CryptOut::Bytes(Octets::of(bytes)))
        }
        // Cipher feedback is refused as it is submitted.
        Algorithm::Cfb => unreachable!(),
    }
}

// Whether the key has not the length that its authentication code wants.
fn has_wrong_key(algorithm: Algorithm, key: &KeyValue) -> bool
    ensures { result ≡ wrong_mac_key algorithm (length key.now) }
{
    match algorithm {
        Algorithm::Mac => key.bytes().len() != 8,
        Algorithm::Retail => key.bytes().len() != 16,
        Algorithm::Ecb | Algorithm::Cbc | Algorithm::Cfb => false,
    }
}

// Whether there are no bytes, or no whole blocks to decrypt.
fn has_wrong_length(direction: Direction, bytes: &[u8]) -> bool
    ensures { result ≡ wrong_length direction (length bytes.now) }
{
    bytes.is_empty() || (direction == Direction::Decrypt && bytes.len() % 8 != 0)
}

// The bytes of a request, padded on the right to whole blocks where they are to be encrypted.
fn whole_blocks(alloc: Global, request: &CryptRequest) -> Result<Vec<u8>, CryptFault>
    requires { wrong_length request.now.direction (length request.now.body) ≡ false }
    ensures bytes { IfOk result (λ bytes. bytes.items ≡ padded_to request.now.direction request.now.body request.now.pad) }
    ensures whole { IfOk result (λ bytes. length bytes.items % 8 ≡ 0) }
    ensures memory { IfErr result (λ fault. fault ≡ CryptFault.NoMemory) }
{
    let Ok(mut bytes) = Vec::from_slice(alloc, request.body.items()) else {
        return Err(CryptFault::NoMemory);
    };
    match request.direction {
        Direction::Encrypt => pad_to_blocks(&mut bytes, request.pad)?,
        Direction::Decrypt => {}
    }
    Ok(bytes)
}

// Pads the bytes on the right to whole blocks.
#[tactic(auto, unfolding(cbc_mac::specs::Modes::padded))]
fn pad_to_blocks(bytes: &mut Vec<u8>, pad: u8) -> Result<(), CryptFault>
    ensures padded { OnOk result (bytes.new.items ≡ padded bytes.old.items pad) }
    ensures whole { OnOk result (length bytes.new.items % 8 ≡ 0) }
    ensures memory { IfErr result (λ fault. fault ≡ CryptFault.NoMemory) }
{
    let length = bytes.len();
    let missing = (8 - length % 8) % 8;
    match bytes.resize(length + missing, pad) {
        Ok(()) => Ok(()),
        Err(_) => Err(CryptFault::NoMemory),
    }
}

// The start value, from the key under which it is sealed.
fn start_value(start: &Start, key: Option<&KeyValue>) -> Block
    requires { is_some key ≡ is_some (sealing_key start.now) }
    ensures { result.0 ≡ start_block tdea_bytes tdea_back_bytes start.now (option_copied key.entry) }
{
    match (start, key) {
        (Start::Zero, _) => Block([0; 8]),
        (Start::Clear(block), _) => *block,
        (Start::Sealed(_, block), Some(key)) => cipher_of(key).decrypt(*block),
        (Start::Sealed(_, _), None) => unreachable!(),
    }
}

// The authentication code of a request's bytes.
fn code(kind: MacKind, key: &KeyValue, request: &CryptRequest) -> Block
    requires { is_mac_key_length kind (length key.now) ≡ true }
    ensures { result.0 ≡ code_of kind key.now request.now.body request.now.pad }
{
    match Mac::new(kind, key.bytes()) {
        Ok(mut mac) => {
            mac.feed(request.body.items());
            mac.end(request.pad)
        }
        // The key has the length of its kind.
        Err(_) => unreachable!(),
    }
}
