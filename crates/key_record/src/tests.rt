//! Records written down by hand, written and read, and bytes that are no record.
use crate::{OutsideGrammar, RECORD_BYTES, read_record, write_record};
use key_attributes::{KeyRow, KeyValue, Uses};
use pad_words::KeyName;
use std::test::Fail;

/// A row, and its record.
struct Row {
    name: &'static [u8],
    value: &'static [u8],
    uses: u16,
    record: [u8; RECORD_BYTES],
}

const DESK: [u8; RECORD_BYTES] = [
    1, 4, // a key, and the length of its name
    b'D', b'E', b'S', b'K', 0, 0, 0, 0, 0, 0, 0, 0, 0, 0, 0, 0, // the name
    0, 0, 0, 0, 0, 0, 0, 0, 0, 0, 0, 0, 0, 0, 0, 0, //
    0, 1, // the uses
    8, // the length of the value
    0x11, 0x12, 0x13, 0x14, 0x15, 0x16, 0x17, 0x18, // the value
    0, 0, 0, 0, 0, 0, 0, 0, 0, 0, 0, 0, 0, 0, 0, 0, //
    0, 0, 0, 0, 0, 0, 0, 0, 0, 0, 0, 0, 0, 0, 0, 0, 0, 0, // zeros
    0, 0, 0, 0, 0, 0, 0, 0, 0, 0, 0, 0, 0, 0, 0, 0, 0,
];

const MAC_2: [u8; RECORD_BYTES] = [
    1, 5, // a key, and the length of its name
    b'M', b'A', b'C', b'_', b'2', 0, 0, 0, 0, 0, 0, 0, 0, 0, 0, 0, // the name
    0, 0, 0, 0, 0, 0, 0, 0, 0, 0, 0, 0, 0, 0, 0, 0, //
    0, 0x54, // the uses
    16, // the length of the value
    0xF0, 0xF1, 0xF2, 0xF3, 0xF4, 0xF5, 0xF6, 0xF7, // the value
    0xF8, 0xF9, 0xFA, 0xFB, 0xFC, 0xFD, 0xFE, 0xFF, 0, 0, 0, 0, 0, 0, 0, 0, //
    0, 0, 0, 0, 0, 0, 0, 0, 0, 0, 0, 0, 0, 0, 0, 0, 0, 0, // zeros
    0, 0, 0, 0, 0, 0, 0, 0, 0, 0, 0, 0, 0, 0, 0, 0, 0,
];

const LONG: [u8; RECORD_BYTES] = [
    1, 32, // a key, and the length of its name
    b'A', b'B', b'C', b'D', b'E', b'F', b'G', b'H', b'I', b'J', b'K', b'L', b'M', // the name
    b'N', b'O', b'P', b'Q', b'R', b'S', b'T', b'U', b'V', b'W', b'X', b'Y', b'Z', //
    b'0', b'1', b'2', b'3', b'4', b'5', //
    3, 0x9F, // the uses
    24, // the length of the value
    0, 1, 2, 3, 4, 5, 6, 7, 8, 9, 10, 11, 12, 13, 14, 15, 16, 17, 18, 19, 20, 21, 22, 23, //
    0, 0, 0, 0, 0, 0, 0, 0, 0, 0, 0, 0, 0, 0, 0, 0, 0, 0, // zeros
    0, 0, 0, 0, 0, 0, 0, 0, 0, 0, 0, 0, 0, 0, 0, 0, 0,
];

const ROWS: &[Row] = &[
    Row {
        name: b"DESK",
        value: &[0x11, 0x12, 0x13, 0x14, 0x15, 0x16, 0x17, 0x18],
        uses: 1,
        record: DESK,
    },
    Row {
        name: b"MAC_2",
        value: &[
            0xF0, 0xF1, 0xF2, 0xF3, 0xF4, 0xF5, 0xF6, 0xF7, 0xF8, 0xF9, 0xFA, 0xFB, 0xFC, 0xFD,
            0xFE, 0xFF,
        ],
        uses: 0x54,
        record: MAC_2,
    },
    Row {
        name: b"ABCDEFGHIJKLMNOPQRSTUVWXYZ012345",
        value: &[
            0, 1, 2, 3, 4, 5, 6, 7, 8, 9, 10, 11, 12, 13, 14, 15, 16, 17, 18, 19, 20, 21, 22, 23,
        ],
        uses: 0x39F,
        record: LONG,
    },
];

/// What a cell has before. No byte is zero.
const OLD: [u8; RECORD_BYTES] = [0xEE; RECORD_BYTES];

#[test]
fn rows(rt: HostRuntime) -> Result<(), Fail> {
    for (place, row) in ROWS.iter().enumerate() {
        let key = KeyRow {
            name: KeyName::read(row.name).ok_or("a name")?,
            value: KeyValue::new(row.value).ok_or("a value")?,
            uses: Uses::from_bits(row.uses).ok_or("uses")?,
        };
        let mut cell = OLD;
        write_record(Some(&key), &mut cell);
        assert!(rt; cell == row.record, "row {place}");
        let Ok(Some(again)) = read_record(&row.record) else {
            return Err("a row".into());
        };
        let same = again.name.text() == row.name && again.value.bytes() == row.value;
        assert!(rt; same && again.uses.bits() == row.uses, "row {place}");
    }
    Ok(())
}

#[test]
fn the_empty_record(rt: HostRuntime) -> Result<(), Fail> {
    let zeros = [0; RECORD_BYTES];
    let mut cell = OLD;
    write_record(None, &mut cell);
    assert!(rt; cell == zeros);
    let is_empty = match read_record(&zeros) {
        Ok(row) => row.is_none(),
        Err(_) => false,
    };
    assert!(rt; is_empty);
    for place in 0..RECORD_BYTES {
        let mut cell = zeros;
        cell[place] = 1;
        assert!(rt; is_refused(&cell), "byte {place}");
    }
    Ok(())
}

/// A place in the record of DESK, and a byte there with which it is no record.
const FAULTS: &[(usize, u8)] = &[
    // neither empty nor a key
    (0, 2),
    // the length of the name, and a byte of it
    (1, 0),
    (1, 33),
    (2, b'd'),
    // a byte behind the name
    (6, b'S'),
    (33, 1),
    // no uses, both construct bits, AES beside another use, and a twelfth bit
    (35, 0),
    (35, 0xC4),
    (34, 4),
    (34, 8),
    // the length of the value
    (36, 9),
    // a byte behind the value
    (45, 1),
    (60, 1),
    // a byte behind all
    (61, 1),
    (95, 1),
];

#[test]
fn faults(rt: HostRuntime) -> Result<(), Fail> {
    for (place, byte) in FAULTS {
        let mut cell = DESK;
        cell[*place] = *byte;
        assert!(rt; is_refused(&cell), "byte {place}");
    }
    Ok(())
}

fn is_refused(cell: &[u8; RECORD_BYTES]) -> bool {
    match read_record(cell) {
        Ok(_) => false,
        Err(OutsideGrammar) => true,
    }
}
