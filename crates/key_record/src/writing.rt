//! A row written as a record.
ghost use Rattle.std.specs.Prelude.{◌≡◌, ◌+◌, ◌++◌, ◌≤◌, IsTrue, Some, length, take};
ghost use Rattle.std.specs.Option.{option_copied};
ghost use Rattle.byteorder.specs.Endian.{big_bytes};
ghost use Rattle.key_attributes.specs.UseBits.{uses_valid};
ghost use Rattle.key_record.specs.Records.{IsRow, padded, spelled};

use crate::RECORD_BYTES;
use byteorder::{BigEndian, ByteOrder};
use key_attributes::{KeyRow, Uses};

/// Writes the record of a row, or the empty record where there is none.
pub fn write_record(row: Option<&KeyRow>, cell: &mut [u8; RECORD_BYTES])
    ensures cell { cell.new ≡ spelled (option_copied row.entry) }
    ensures valid { IsRow (option_copied row.entry) }
{
    match row {
        Some(row) => write_row(row, cell),
        None => cell.fill(0),
    }
}

fn write_row(row: &KeyRow, cell: &mut [u8; RECORD_BYTES])
    ensures cell { cell.new ≡ spelled (Some row.now) }
    ensures valid { IsRow (Some row.now) }
{
    let name = row.name.text();
    let value = row.value.bytes();
    put_field(cell, 0, &[1, name.len() as u8], 2);
    put_field(cell, 2, name, 32);
    put_field(cell, 34, &bytes_of_uses(row.uses), 2);
    put_field(cell, 36, &[value.len() as u8], 1);
    put_field(cell, 37, value, 24);
    put_field(cell, 61, &[], 35);
}

// The higher byte first.
fn bytes_of_uses(uses: Uses) -> [u8; 2]
    ensures bytes { result ≡ big_bytes 2 uses }
    ensures valid { IsTrue (uses_valid uses) }
{
    let mut bytes = [0; 2];
    BigEndian::write_u16(&mut bytes, uses.bits());
    bytes
}

// Writes the field at its place, and zero bytes behind it up to its size.
fn put_field(cell: &mut [u8], at: usize, field: &[u8], size: usize)
    requires fits { at + size ≤ length cell.old }
    requires size { length field.now ≤ size }
    ensures { take (at + size) cell.new ≡ take at cell.old ++ padded size field.now }
{
    cell[at..at + field.len()].copy_from_slice(field);
    cell[at + field.len()..at + size].fill(0);
}
