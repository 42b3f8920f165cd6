//! Keys of tests, and lists of slots, names and bytes that rows are compared with.
use key_attributes::{KeyRow, KeyValue, Uses};
use pad_words::KeyName;

pub const CRYPT: u16 = 1;

/// A slot, the name in it, and the byte of its value.
pub type Kept = (u8, &'static [u8], u8);

/// A row of this name and these uses, whose value is eight times this byte.
pub fn key(name: &[u8], byte: u8, uses: u16) -> Option<KeyRow> {
    Some(KeyRow {
        name: KeyName::read(name)?,
        value: KeyValue::new(&[byte; 8])?,
        uses: Uses::from_bits(uses)?,
    })
}

/// The row whose name is K and this number of two digits, and whose byte is the number.
pub fn numbered_key(number: u8) -> Option<KeyRow> {
    key(
        &[b'K', b'0' + number / 10, b'0' + number % 10],
        number,
        CRYPT,
    )
}

/// Whether the row has this name, and a value of eight times this byte.
pub fn is_key(row: &KeyRow, name: &[u8], byte: u8) -> bool {
    row.name.text() == name && row.value.bytes() == [byte; 8].as_slice()
}

// Whether the slot and the row are these.
fn is_kept(is: &(u8, KeyRow), kept: &Kept) -> bool {
    is.0 == kept.0 && is_key(&is.1, kept.1, kept.2)
}

/// Whether these rows stand in these slots, and no others.
pub fn has_rows(rows: &[(u8, KeyRow)], kept: &[Kept]) -> bool {
    if rows.len() != kept.len() {
        return false;
    }
    for place in 0..rows.len() {
        if !is_kept(&rows[place], &kept[place]) {
            return false;
        }
    }
    true
}
