//! What is so of the records of rows.
ghost use Rattle.std.specs.Prelude.{◌≡◌, ◌≢◌, List, None, Option, Some, length, replicate, ℕ};
ghost use Rattle.key_attributes.specs.declared.KeyRow.{KeyRow};
ghost use Rattle.key_record.specs.Records.{IsRow, record_of, spelled};

/// Rows with one record are the same.
pub fn each_row_has_its_record()
    ensures { (row other : Option KeyRow) → IsRow row → IsRow other → spelled row ≡ spelled other → row ≡ other }
{}

/// A record has 96 bytes.
pub fn record_has_96_bytes()
    ensures { (row : Option KeyRow) → IsRow row → length (spelled row) ≡ 96 }
{}

/// 96 zero bytes are the empty record, and the record of no key.
pub fn zero_bytes_are_the_empty_record()
    ensures empty { spelled None ≡ replicate 96 0 }
    ensures no_key { (row : Option KeyRow) → spelled row ≡ replicate 96 0 → row ≡ None }
{}

/// The record of a row is read as that row, and what is read as a row is its record. Bytes that are the record of no row
/// are no record.
pub fn records_are_read_back()
    ensures spelled { (row : Option KeyRow) → IsRow row → record_of (spelled row) ≡ Some row }
    ensures row { (cell : List ℕ) (row : Option KeyRow) → record_of cell ≡ Some row → IsRow row × (cell ≡ spelled row) }
    ensures none { (cell : List ℕ) → ((row : Option KeyRow) → IsRow row → cell ≢ spelled row) → record_of cell ≡ None }
{}
