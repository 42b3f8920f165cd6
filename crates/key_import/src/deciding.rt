//! The decision on an import.
ghost use Rattle.std.specs.Prelude.{◌≡◌, IsTrue, false, length};
ghost use Rattle.std.specs.Option.{option_copied};
ghost use Rattle.des_core.specs.TripleDes.{tdea_back_bytes};
ghost use Rattle.key_attributes.specs.UseBits.{uses_valid};
ghost use Rattle.key_import.specs.Imports.{decide_import, given_bytes, new_row, refuses_part, unfinished, wrong_value_length};

use crate::ImportFault;
use crate::values::{joined, unsealed};
use key_attributes::{KeyRow, KeyValue, Uses, plain_uses};
use pad_steps::{ImportRequest, ImportSource};

/// The row that an import makes, or the first fault that applies. `target` is the row of the request's name, if the name is
/// present; `kek` is the key-encrypting key of a sealed value; `part` is the value of the part buffer, if that is not empty.
/// The value, of 8, 16 or 24 bytes, is decrypted by ECB (FIPS 81) under the key-encrypting key, and joined by XOR with
/// that of a target under construction. Parity bits are neither checked nor changed, and weak keys are accepted.
pub fn decide_import(
    request: &ImportRequest,
    target: Option<&KeyRow>,
    kek: Option<&KeyValue>,
    part: Option<&KeyValue>,
) -> Result<KeyRow, ImportFault>
    requires { IsTrue (uses_valid request.now.uses) }
    ensures { result ≡ decide_import tdea_back_bytes request.now (option_copied target.entry) (option_copied kek.entry) (option_copied part.entry) }
{
    let old = under_construction(target);
    let Some(bytes) = given(&request.source, part) else {
        return Err(ImportFault::AccessDenied);
    };
    if refuses(old, request) {
        return Err(ImportFault::AccessDenied);
    }
    if has_wrong_length(bytes, kek, old) {
        return Err(ImportFault::InvalidKeyLength);
    }
    Ok(row(request, old, kek, bytes))
}

// The row, where it is under construction.
fn under_construction<'k>(row: Option<&'k KeyRow>) -> Option<&'k KeyRow>
    ensures { option_copied result ≡ unfinished (option_copied row.entry) }
{
    match row {
        Some(row) if row.uses.under_construction() => Some(row),
        _ => None,
    }
}

// The bytes that the source gives.
fn given<'b>(source: &'b ImportSource, part: Option<&'b KeyValue>) -> Option<&'b [u8]>
    ensures { option_copied result ≡ given_bytes (option_copied part.entry) source.now }
{
    match (source, part) {
        (ImportSource::Clear(bytes) | ImportSource::Sealed(_, bytes), _) => Some(bytes.items()),
        (ImportSource::Part, Some(value)) => Some(value.bytes()),
        (ImportSource::Part, None) => None,
    }
}

// Whether the key under construction does not take this part.
fn refuses(old: Option<&KeyRow>, request: &ImportRequest) -> bool
    requires { IsTrue (uses_valid request.now.uses) }
    ensures { result ≡ refuses_part (option_copied old.entry) request.now }
{
    let Some(old) = old else {
        return false;
    };
    let is_part = matches!(request.source, ImportSource::Part);
    old.uses.plain() != plain_uses(request.uses)
        || (old.uses.has_construct() && is_part)
        || (old.uses.has_secure_construct() && !is_part)
}

// Whether the bytes are no key, longer than the key-encrypting key, or of another length than the key under construction.
fn has_wrong_length(bytes: &[u8], kek: Option<&KeyValue>, old: Option<&KeyRow>) -> bool
    ensures { result ≡ wrong_value_length (length bytes.now) (option_copied kek.entry) (option_copied old.entry) }
{
    let is_longer = match kek {
        Some(kek) => kek.bytes().len() < bytes.len(),
        None => false,
    };
    let is_other = match old {
        Some(old) => old.value.bytes().len() != bytes.len(),
        None => false,
    };
    !matches!(bytes.len(), 8 | 16 | 24) || is_longer || is_other
}

// The row of the request's name and uses.
fn row(
    request: &ImportRequest,
    old: Option<&KeyRow>,
    kek: Option<&KeyValue>,
    bytes: &[u8],
) -> KeyRow
    requires uses { IsTrue (uses_valid request.now.uses) }
    requires long { wrong_value_length (length bytes.now) (option_copied kek) (option_copied old) ≡ false }
    ensures { result ≡ new_row tdea_back_bytes request.now (option_copied old.entry) (option_copied kek.entry) bytes.now }
{
    let value = unsealed(kek, bytes);
    KeyRow {
        name: request.name.copy(),
        value: joined(old, value),
        uses: valid_uses(request.uses),
    }
}

// The uses of a valid word.
fn valid_uses(bits: u16) -> Uses
    requires { IsTrue (uses_valid bits) }
    ensures { result ≡ bits }
{
    match Uses::from_bits(bits) {
        Some(uses) => uses,
        None => unreachable!(),
    }
}
