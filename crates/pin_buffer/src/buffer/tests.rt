//! PINs held one after another, and what stands in the memory then.
use super::PinBuffer;
use pad_words::Nibbles;

/// What is held, one after another, and the sixteen places then.
const ROWS: [(&str, &str); 6] = [
    ("1234", "1234000000000000"),
    ("9876543210987654", "9876543210987654"),
    ("00005", "0000500000000000"),
    ("", "0000000000000000"),
    ("1111222233334444", "1111222233334444"),
    ("7", "7000000000000000"),
];

fn nibbles(text: &str) -> Nibbles {
    let mut nibbles = Nibbles::empty();
    for &c in text.as_bytes() {
        let _ = nibbles.push(c.wrapping_sub(b'0'));
    }
    nibbles
}

// Holds the digits. False where they are no digits of a PIN.
fn holds(buffer: &mut PinBuffer, digits: &Nibbles) -> bool {
    let are_decimal = digits.items().iter().all(|&digit| digit < 10);
    if digits.items().len() > 16 || !are_decimal {
        return false;
    }
    buffer.set(digits);
    true
}

fn spells(buffer: &PinBuffer, text: &str) -> bool {
    let digits = buffer.digits();
    digits.len() == text.len()
        && digits
            .iter()
            .zip(text.as_bytes())
            .all(|(digit, &c)| digit.get() + b'0' == c)
}

fn places_spell(buffer: &PinBuffer, text: &str) -> bool {
    text.len() == 16
        && buffer
            .places
            .iter()
            .zip(text.as_bytes())
            .all(|(digit, &c)| digit.get() + b'0' == c)
}

#[test]
fn places(rt: HostRuntime) {
    let mut buffer = PinBuffer::empty();
    assert!(rt; places_spell(&buffer, "0000000000000000"));
    for (text, places) in ROWS {
        assert!(rt; holds(&mut buffer, &nibbles(text)), "{text}");
        assert!(rt; spells(&buffer, text), "{text}");
        assert!(rt; places_spell(&buffer, places), "{text}");
    }
    buffer.clear();
    assert!(rt; spells(&buffer, ""));
    assert!(rt; places_spell(&buffer, "0000000000000000"));
}
