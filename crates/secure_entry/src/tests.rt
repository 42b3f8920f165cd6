//! Key parts and their values, and values joined, against bytes written down by hand.
use crate::{PartBuffer, xor};
use key_attributes::KeyValue;
use pad_words::Nibbles;

/// The nibbles of a key part, one after another in one buffer, and the bytes of its value.
const PARTS: [(&str, &[u8]); 5] = [
    (
        "0123456789ABCDEF",
        &[0x01, 0x23, 0x45, 0x67, 0x89, 0xAB, 0xCD, 0xEF],
    ),
    (
        "FEDCBA98765432100000000000000001",
        &[
            0xFE, 0xDC, 0xBA, 0x98, 0x76, 0x54, 0x32, 0x10, 0, 0, 0, 0, 0, 0, 0, 1,
        ],
    ),
    (
        "A1A2A3A4A5A6A7A8B1B2B3B4B5B6B7B8C1C2C3C4C5C6C7C8",
        &[
            0xA1, 0xA2, 0xA3, 0xA4, 0xA5, 0xA6, 0xA7, 0xA8, 0xB1, 0xB2, 0xB3, 0xB4, 0xB5, 0xB6,
            0xB7, 0xB8, 0xC1, 0xC2, 0xC3, 0xC4, 0xC5, 0xC6, 0xC7, 0xC8,
        ],
    ),
    ("", &[]),
    ("00000000000000F0", &[0, 0, 0, 0, 0, 0, 0, 0xF0]),
];

/// Two values, and the two joined; none where they cannot be.
const JOINED: [(&[u8], &[u8], Option<&[u8]>); 3] = [
    (
        &[0x01, 0x23, 0x45, 0x67, 0x89, 0xAB, 0xCD, 0xEF],
        &[0xFE, 0xDC, 0xBA, 0x98, 0x76, 0x54, 0x32, 0x11],
        Some(&[0xFF, 0xFF, 0xFF, 0xFF, 0xFF, 0xFF, 0xFF, 0xFE]),
    ),
    (
        &[0x55, 0, 0, 0, 0, 0, 0, 0, 0, 0, 0, 0, 0, 0, 0, 0x0F],
        &[0xAA, 0, 0, 0, 0, 0, 0, 0, 0, 0, 0, 0, 0, 0, 0, 0x33],
        Some(&[0xFF, 0, 0, 0, 0, 0, 0, 0, 0, 0, 0, 0, 0, 0, 0, 0x3C]),
    ),
    (&[1; 8], &[1; 16], None),
];

fn nibbles(text: &str) -> Nibbles {
    let mut nibbles = Nibbles::empty();
    for &c in text.as_bytes() {
        let _ = nibbles.push(match c {
            b'0'..=b'9' => c - b'0',
            b'A'..=b'F' => c - b'A' + 10,
            _ => 0xFF,
        });
    }
    nibbles
}

// Holds the nibbles, and tells whether the value is of these bytes.
fn is_value(part: &mut PartBuffer, nibbles: &Nibbles, bytes: &[u8]) -> bool {
    if !matches!(nibbles.items().len(), 0 | 16 | 32 | 48) {
        return false;
    }
    part.set(nibbles);
    match part.value() {
        Some(value) => value.bytes() == bytes,
        None => bytes.is_empty(),
    }
}

fn is_joined(a: &[u8], b: &[u8], joined: Option<&[u8]>) -> Option<bool> {
    let a = KeyValue::new(a)?;
    let b = KeyValue::new(b)?;
    Some(match xor(&a, &b) {
        Some(value) => joined == Some(value.bytes()),
        None => joined.is_none(),
    })
}

#[test]
fn parts(rt: HostRuntime) {
    let mut part = PartBuffer::empty();
    assert!(rt; part.value().is_none());
    for (text, bytes) in PARTS {
        assert!(rt; is_value(&mut part, &nibbles(text), bytes), "{text}");
    }
    part.clear();
    assert!(rt; part.items().is_empty());
}

#[test]
fn joined(rt: HostRuntime) {
    for (place, (a, b, joined)) in JOINED.into_iter().enumerate() {
        assert_eq!(rt; is_joined(a, b, joined), Some(true), "row {place}");
    }
}
