//! A record read as a row.
ghost use Rattle.std.specs.Prelude.{◌≡◌, ◌≢◌, ◌+◌, ◌<◌, ◌≤◌, ◌↔◌, IfNone, IfOk, IfSome, IsTrue, MatchOption, None, Ok, OnErr, Option, Some, drop, length, take};
ghost use Rattle.byteorder.specs.Endian.{big_number};
ghost use Rattle.key_attributes.specs.declared.KeyRow.{KeyRow};
ghost use Rattle.key_record.specs.Records.{IsRow, record_of, row_in, spelled};

use crate::{RECORD_BYTES, write_record};
use byteorder::{BigEndian, ByteOrder};
use key_attributes::{KeyRow, KeyValue, Uses};
use pad_words::KeyName;

/// The bytes are no record.
#[derive(Clone, Copy, Debug, PartialEq, Eq)]
pub struct OutsideGrammar;

/// The row of a record, none where it is the empty one. Refused exactly where the bytes are the record of no row.
pub fn read_record(cell: &[u8; RECORD_BYTES]) -> Result<Option<KeyRow>, OutsideGrammar>
    ensures record { IfOk result (λ row. record_of cell.now ≡ Some row) }
    ensures none { OnErr result (record_of cell.now ≡ None) }
    ensures ok { IfOk result (λ row. IsRow row × (cell.now ≡ spelled row)) }
    ensures err { OnErr result ((row : Option KeyRow) → IsRow row → cell.now ≢ spelled row) }
    ensures written { (row : Option KeyRow) → IsRow row → cell.now ≡ spelled row → result ≡ Ok row }
{
    let row = read_fields(cell)?;
    let mut again = [0; RECORD_BYTES];
    write_record(row.as_ref(), &mut again);
    if is_same(&again, cell) {
        Ok(row)
    } else {
        Err(OutsideGrammar)
    }
}

// The row that the fields tell, whatever else the bytes are.
fn read_fields(cell: &[u8; RECORD_BYTES]) -> Result<Option<KeyRow>, OutsideGrammar>
    ensures row { IfOk result IsRow }
    ensures written { (row : Option KeyRow) → IsRow row → cell.now ≡ spelled row → result ≡ Ok row }
{
    if cell[0] == 0 {
        return Ok(None);
    }
    match read_row(cell) {
        Some(row) => Ok(Some(row)),
        None => Err(OutsideGrammar),
    }
}

// The row that the fields of a key's record tell. None where one of them is outside the grammar.
fn read_row(cell: &[u8; RECORD_BYTES]) -> Option<KeyRow>
    ensures row { IfSome result (λ row. (row ≡ row_in cell.now) × IsRow (Some row)) }
    ensures none { IfNone result (IsRow (Some (row_in cell.now)) → ⊥) }
{
    let name = KeyName::read(field(cell, 2, cell[1])?)?;
    let uses = Uses::from_bits(bits_of_uses(cell))?;
    let value = KeyValue::new(field(cell, 37, cell[36])?)?;
    Some(KeyRow { name, value, uses })
}

// The bits of the uses, the higher byte first.
fn bits_of_uses(cell: &[u8; RECORD_BYTES]) -> u16
    ensures { result ≡ big_number 2 (drop 34 cell.now) }
{
    BigEndian::read_u16(&cell[34..])
}

// The bytes from a place on. None where there are fewer.
fn field(cell: &[u8], at: usize, len: u8) -> Option<&[u8]>
    requires { at ≤ length cell.now }
    ensures { MatchOption result (length cell.now < at + len) (λ field. field.now ≡ take len (drop at cell.now)) }
{
    cell[at..].get(..usize::from(len))
}

// Whether the bytes are the same.
fn is_same(first: &[u8; RECORD_BYTES], second: &[u8; RECORD_BYTES]) -> bool
    ensures { IsTrue result ↔ (first.now ≡ second.now) }
{
    *first == *second
}
