use crate::{FormFault, fill_words, format};
use arrayvec::ArrayVec;
use pad_steps::Form;
use pad_words::{Block, Digit, Nibbles};

/// The value of a hexadecimal digit, 16 for any other letter.
fn value_of(letter: u8) -> u8 {
    match letter {
        b'0'..=b'9' => letter - b'0',
        b'A'..=b'F' => letter - b'A' + 10,
        _ => 16,
    }
}

/// The digits of a PIN that is written out.
fn pin(text: &str) -> ArrayVec<Digit, 16> {
    let mut digits = ArrayVec::new();
    for letter in text.as_bytes() {
        if let Some(digit) = Digit::new(value_of(*letter)) {
            let _ = digits.try_push(digit);
        }
    }
    digits
}

/// Customer data that is written out in hexadecimal digits.
fn customer(text: &str) -> Nibbles {
    let mut values = Nibbles::empty();
    for letter in text.as_bytes() {
        values.push(value_of(*letter));
    }
    values
}

/// PINs, account numbers without their check digit, and blocks of format 0. Made by:
///
/// for pin, pan in ROWS:
///     left = ("0%X" % len(pin) + pin).ljust(16, "F")
///     print("%016X" % (int(left, 16) ^ int(pan[-12:], 16)))
const FORMAT_0_BLOCKS: [(&str, &str, u64); 8] = [
    ("1234", "543210123456789", 0x0412_15FE_DCBA_9876),
    ("0000", "543210123456789", 0x0400_21FE_DCBA_9876),
    ("9876", "400000123456", 0x0498_36FF_FFED_CBA9),
    ("31415", "999999999999", 0x0531_D8C6_6666_6666),
    ("0000", "000000000000", 0x0400_00FF_FFFF_FFFF),
    ("123456789012", "400000123456", 0x0C12_7456_7882_26A9),
    ("123456789012", "4000001234567890123", 0x0C12_1713_1F19_13DC),
    ("999999999999", "123456789012345", 0x0C99_DCFE_1098_BABA),
];

/// Neither the padding nibble nor the fill words are of format 0.
#[test]
fn blocks_of_format_0(rt: HostRuntime) {
    for (digits, account, block) in FORMAT_0_BLOCKS {
        let wanted = Ok(Block(block.to_be_bytes()));
        for (pad, fill) in [(15, &[][..]), (0, &[7, 0xFFFF_FFFF][..])] {
            let made = format(Form::Iso0, &pin(digits), &customer(account), pad, fill);
            assert_eq!(rt; made, wanted, "PIN {digits}, account {account}, pad {pad}");
        }
    }
}

/// The first fill words of the seed of zeros: the key stream of ChaCha20 under a key of zeros, as numbers of 32 bits. As
/// fill nibbles they are AAAFFACFED.
const FILL_OF_ZEROS: [u32; 10] = [
    0xADE0_B876,
    0x903D_F1A0,
    0xE56A_5D40,
    0x28BD_8653,
    0xB819_D2BD,
    0x1AED_8DA0,
    0xCCEF_36A8,
    0xC70D_778B,
    0x7C59_41DA,
    0x8D48_5751,
];

/// The words of places 13 to 18 under the key 00 01 .. 1F, by OpenSSL's `enc -chacha20`: they lie in two blocks.
const FILL_FROM_13: [u32; 6] = [
    0x2DA3_F7B1,
    0xA062_27C2,
    0x0C41_5B48,
    0x3142_B818,
    0xD1A6_E6AD,
    0x615C_6113,
];

#[test]
fn fill_words_of_chacha20(rt: HostRuntime) {
    let mut words = [0; 10];
    fill_words(&[0; 32], 0, &mut words);
    assert_eq!(rt; words, FILL_OF_ZEROS);
    let mut seed = [0; 32];
    for i in 0..32 {
        seed[i] = i as u8;
    }
    let mut words = [0; 6];
    fill_words(&seed, 13, &mut words);
    assert_eq!(rt; words, FILL_FROM_13);
}

/// A form, a PIN, customer data, the padding nibble, and the block or the fault.
type Row = (Form, &'static str, &'static str, u8, Result<u64, FormFault>);

/// The fill words are those of the seed of zeros, and four more that are not used.
const ROWS: [Row; 26] = [
    (
        Form::Iso1,
        "1234",
        "0123456789",
        0,
        Ok(0x1412_3401_2345_6789),
    ),
    (
        Form::Iso1,
        "123456789012",
        "0123456789",
        0,
        Ok(0x1C12_3456_7890_1201),
    ),
    (
        Form::Iso3,
        "1234",
        "543210123456789",
        0,
        Ok(0x3412_15AB_8CBF_A864),
    ),
    (Form::Ibm3624, "12345", "", 15, Ok(0x1234_5FFF_FFFF_FFFF)),
    (Form::Ibm3624, "1234", "", 5, Ok(0x1234_5555_5555_5555)),
    (
        Form::Diebold,
        "1234567890123",
        "",
        15,
        Ok(0x1234_5678_9012_3FFF),
    ),
    (
        Form::Diebold,
        "1234567890123456",
        "",
        15,
        Ok(0x1234_5678_9012_3456),
    ),
    (Form::DieboldCo, "1234", "5", 15, Ok(0x5123_4FFF_FFFF_FFFF)),
    (
        Form::DieboldCo,
        "123456789012",
        "F",
        0,
        Ok(0xF123_4567_8901_2000),
    ),
    (
        Form::Iso2,
        "1234",
        "543210123456789",
        15,
        Err(FormFault::FormatNotSupported),
    ),
    (
        Form::Iso4,
        "123",
        "54321012345",
        16,
        Err(FormFault::FormatNotSupported),
    ),
    (Form::Iso0, "1234", "", 15, Err(FormFault::InvalidData)),
    (
        Form::Iso0,
        "123",
        "54321012345",
        15,
        Err(FormFault::InvalidData),
    ),
    (
        Form::Iso0,
        "1234",
        "54321012345678901234",
        15,
        Err(FormFault::InvalidData),
    ),
    (
        Form::Iso3,
        "1234",
        "A43210123456789",
        15,
        Err(FormFault::InvalidData),
    ),
    (
        Form::Iso1,
        "1234567890123",
        "54321A1234",
        15,
        Err(FormFault::InvalidData),
    ),
    (
        Form::Iso1,
        "1234",
        "54321012345",
        15,
        Err(FormFault::InvalidData),
    ),
    (Form::Ibm3624, "1234", "5", 15, Err(FormFault::InvalidData)),
    (Form::DieboldCo, "", "AB", 255, Err(FormFault::InvalidData)),
    (
        Form::Iso0,
        "123",
        "543210123456789",
        16,
        Err(FormFault::InvalidData),
    ),
    (
        Form::Iso0,
        "123",
        "543210123456789",
        15,
        Err(FormFault::LengthError),
    ),
    (
        Form::Iso0,
        "1234567890123",
        "543210123456789",
        15,
        Err(FormFault::LengthError),
    ),
    (
        Form::Iso1,
        "1234567890123",
        "0123456789",
        15,
        Err(FormFault::LengthError),
    ),
    (
        Form::Iso3,
        "1234567890123",
        "543210123456",
        15,
        Err(FormFault::LengthError),
    ),
    (
        Form::DieboldCo,
        "1234567890123",
        "0",
        15,
        Err(FormFault::LengthError),
    ),
    (Form::Diebold, "123", "", 15, Err(FormFault::LengthError)),
];

/// The block of a row, or why none is made.
#[tactic(auto, using(crate::proofs::FillLemmas::few_fill_words))]
fn made(row: &Row, fill: &[u32; 14]) -> Result<Block, FormFault> {
    let (form, digits, data, pad, _) = *row;
    format(form, &pin(digits), &customer(data), pad, fill)
}

/// Of several faults the first is told: the form, then the customer data and the padding nibble, then the length.
#[test]
fn blocks_and_refusals_of_each_form(rt: HostRuntime) {
    let mut fill = [0; 14];
    fill[..10].copy_from_slice(&FILL_OF_ZEROS);
    for (place, row) in ROWS.iter().enumerate() {
        let wanted = match row.4 {
            Ok(block) => Ok(Block(block.to_be_bytes())),
            Err(fault) => Err(fault),
        };
        assert_eq!(rt; made(row, &fill), wanted, "row {place}");
    }
}
