//! The standard work at 40 random blocks and checks, at some known ones, and at what it refuses.
//!
//! The answers come from plain arithmetic and from OpenSSL and its legacy provider:
//! `echo $block | xxd -r -p | openssl enc -nopad -provider legacy -provider default -des-ecb -K $key | xxd -p`, with
//! `-des-ede` and `-des-ede3` for keys of two and three parts; the fill words are little-endian numbers of 32 bits in
//! `head -c 256 /dev/zero | openssl enc -chacha20 -K $seed -iv 00000000000000000000000000000000`, with the seed 00 01 .. 1F.
use crate::StandardWork;
use arrayvec::ArrayVec;
use key_attributes::KeyValue;
use pad_steps::{BlockRequest, CheckRequest, Command, ExtraRequest, Form, PinRequest};
use pad_words::{Block, Digit, KeyName, Nibbles, Octets};
use pin_blocks::{AdmitFault, PinAnswer, PinFault, PinWork, fill_words};

/// What comes of a command.
#[derive(Clone, Copy, Debug, PartialEq, Eq)]
enum Outcome {
    NotFormed,
    NotAdmitted(AdmitFault),
    NotReady(PinFault),
    Answered(PinAnswer),
}

/// What a work answers to a command for these digits, under these keys, with as many of the words as it draws.
fn run<W: PinWork>(
    work: &W,
    command: &Command,
    digits: &ArrayVec<Digit, 16>,
    first: &KeyValue,
    second: Option<&KeyValue>,
    words: &[u32; 14],
) -> Outcome {
    let Command::Pin(request) = command else {
        return Outcome::NotFormed;
    };
    if !command.is_well_formed() {
        return Outcome::NotFormed;
    }
    if let Err(why) = work.admit(request) {
        return Outcome::NotAdmitted(why);
    }
    let second_length = match second {
        Some(key) => Some(key.bytes().len() as u8),
        None => None,
    };
    let digits = digits.as_slice();
    let first_length = first.bytes().len() as u8;
    match work.ready(request, digits.len() as u8, first_length, second_length) {
        Err(why) => Outcome::NotReady(why),
        Ok(draws) => match words.get(..draws as usize) {
            Some(fill) => Outcome::Answered(work.result(request, digits, first, second, fill)),
            None => Outcome::NotFormed,
        },
    }
}

/// The value of a hexadecimal digit, 16 for any other letter.
fn value_of(letter: u8) -> u8 {
    match letter {
        b'0'..=b'9' => letter - b'0',
        b'A'..=b'F' => letter - b'A' + 10,
        _ => 16,
    }
}

/// The digits of a PIN that is written out.
fn pin(text: &str) -> ArrayVec<Digit, 16> {
    let mut digits = ArrayVec::new();
    for letter in text.as_bytes() {
        if let Some(digit) = Digit::new(value_of(*letter)) {
            let _ = digits.try_push(digit);
        }
    }
    digits
}

/// Nibbles that are written out in hexadecimal digits.
fn nibbles(text: &str) -> Nibbles {
    let mut values = Nibbles::empty();
    for letter in text.as_bytes() {
        values.push(value_of(*letter));
    }
    values
}

/// The key of these parts, of eight bytes each. None where there are no parts, or more than three.
fn key_of(parts: &[u64]) -> Option<KeyValue> {
    let mut bytes = ArrayVec::<u8, 24>::new();
    for part in parts {
        for byte in part.to_be_bytes() {
            let _ = bytes.try_push(byte);
        }
    }
    KeyValue::new(bytes.as_slice())
}

const NONE: &[u64] = &[];

const ZERO: &[u64] = &[0];

const PUBLISHED: &[u64] = &[0x0E32_9232_EA6D_0D73];

const ONE: &[u64] = &[0xBFF9_D7E0_D877_099A];

const TWO: &[u64] = &[0x4907_8040_EE97_9B8D, 0x2BFD_5919_20B7_F499];

const THREE: &[u64] = &[
    0xAEE2_5F0E_F0F3_E2F0,
    0x47CB_11CA_F27A_3237,
    0x0C13_1C48_7507_7334,
];

/// XOR data.
const DATA: u64 = 0x8CD1_CEEE_8110_6D8C;

/// The usual table: A to F are 0 to 5.
const DECIMAL: &str = "0123456789012345";

/// Another table.
const TABLE: &str = "1316141762632266";

/// A form, a PIN, customer data, the padding nibble, the first key, the second key or none, the XOR data, the number of the
/// first fill word, and the encrypted block.
type BlockRow = (
    Form,
    &'static str,
    &'static str,
    u8,
    &'static [u64],
    &'static [u64],
    Option<u64>,
    u64,
    u64,
);

/// The last four rows are known: the ends of two are published answers of DES.
const BLOCKS: [BlockRow; 28] = [
    (
        Form::Iso0,
        "6257",
        "636074941147387",
        0x6,
        ONE,
        NONE,
        None,
        37,
        0x6E9B_990C_9C94_E410,
    ),
    (
        Form::Iso0,
        "278115071708",
        "821564613373003569",
        0x6,
        TWO,
        THREE,
        None,
        3,
        0x4F43_DBD9_7A3F_CA4B,
    ),
    (
        Form::Iso0,
        "6028338",
        "809983797527213015",
        0x9,
        THREE,
        ONE,
        Some(DATA),
        6,
        0x54BF_F736_D167_C0C2,
    ),
    (
        Form::Iso0,
        "2913",
        "396121710922236051",
        0xC,
        ONE,
        TWO,
        Some(DATA),
        26,
        0x6C34_7DA7_DA8F_BDA2,
    ),
    (
        Form::Iso1,
        "9693",
        "5756053136",
        0xD,
        ONE,
        NONE,
        None,
        3,
        0xC5A7_1B5C_B1F4_BED1,
    ),
    (
        Form::Iso1,
        "685086502635",
        "2606067020",
        0x5,
        TWO,
        THREE,
        None,
        12,
        0xA5C9_465F_6297_5F9E,
    ),
    (
        Form::Iso1,
        "9960018802",
        "5991984729",
        0xD,
        THREE,
        ONE,
        Some(DATA),
        18,
        0x15BA_61AA_D1A3_5C81,
    ),
    (
        Form::Iso1,
        "8129044475",
        "1464970115",
        0xC,
        ONE,
        TWO,
        Some(DATA),
        17,
        0xA400_50AF_3D23_B684,
    ),
    (
        Form::Iso3,
        "4340",
        "0316293569140525694",
        0xB,
        ONE,
        NONE,
        None,
        13,
        0x21D0_1B9C_AC79_873F,
    ),
    (
        Form::Iso3,
        "808140081431",
        "775001461569",
        0xF,
        TWO,
        THREE,
        None,
        24,
        0xA53C_3D30_884A_135C,
    ),
    (
        Form::Iso3,
        "423226",
        "120326144655635370",
        0x0,
        THREE,
        ONE,
        Some(DATA),
        22,
        0xFF2D_43A3_66D7_0EBC,
    ),
    (
        Form::Iso3,
        "86869182383",
        "202435707235",
        0xF,
        ONE,
        TWO,
        Some(DATA),
        26,
        0x3446_3557_2512_8E3D,
    ),
    (
        Form::Ibm3624,
        "5346",
        "",
        0x0,
        ONE,
        NONE,
        None,
        26,
        0xD7DF_120A_2426_71B7,
    ),
    (
        Form::Ibm3624,
        "6203992091839364",
        "",
        0x0,
        TWO,
        THREE,
        None,
        29,
        0xF43A_A75C_CA49_FDC5,
    ),
    (
        Form::Ibm3624,
        "45533",
        "",
        0x1,
        THREE,
        ONE,
        Some(DATA),
        33,
        0x3D28_D2CA_A080_E76E,
    ),
    (
        Form::Ibm3624,
        "455131",
        "",
        0xF,
        ONE,
        TWO,
        Some(DATA),
        3,
        0xFF09_4D5F_2EED_51E1,
    ),
    (
        Form::Diebold,
        "3468",
        "",
        0x4,
        ONE,
        NONE,
        None,
        18,
        0x65BE_169B_07B0_E269,
    ),
    (
        Form::Diebold,
        "5603515556843913",
        "",
        0x2,
        TWO,
        THREE,
        None,
        37,
        0x47E2_9F07_6E98_D3F3,
    ),
    (
        Form::Diebold,
        "8289239",
        "",
        0x5,
        THREE,
        ONE,
        Some(DATA),
        13,
        0x0AA6_496C_5850_2A99,
    ),
    (
        Form::Diebold,
        "83326940135",
        "",
        0x9,
        ONE,
        TWO,
        Some(DATA),
        14,
        0x53A3_27E9_FC80_22EE,
    ),
    (
        Form::DieboldCo,
        "9101",
        "3",
        0x5,
        ONE,
        NONE,
        None,
        9,
        0x6398_98FA_B0FC_CB3B,
    ),
    (
        Form::DieboldCo,
        "654382255969",
        "D",
        0x7,
        TWO,
        THREE,
        None,
        34,
        0xF4E0_E0EE_52EF_E66D,
    ),
    (
        Form::DieboldCo,
        "2516675",
        "4",
        0xC,
        THREE,
        ONE,
        Some(DATA),
        15,
        0xFA4A_B547_C81B_F3D7,
    ),
    (
        Form::DieboldCo,
        "9236819686",
        "3",
        0x0,
        ONE,
        TWO,
        Some(DATA),
        33,
        0x137F_5845_0D9C_BE96,
    ),
    (
        Form::Iso0,
        "1234",
        "543210123456789",
        0xF,
        ZERO,
        NONE,
        None,
        0,
        0xDFB4_F453_C786_CCBB,
    ),
    (
        Form::Diebold,
        "1234567890123",
        "",
        0xF,
        ZERO,
        NONE,
        None,
        0,
        0xC2B3_FEB3_A0C2_CF07,
    ),
    (
        Form::Ibm3624,
        "0000",
        "",
        0x0,
        ZERO,
        NONE,
        None,
        0,
        0x8CA6_4DE9_C1B1_23A7,
    ),
    (
        Form::Ibm3624,
        "8787878787878787",
        "",
        0xF,
        PUBLISHED,
        NONE,
        None,
        0,
        0,
    ),
];

/// A PIN, a key, validation data, the padding nibble, an offset, a count, the no-zero flag, a table, and the answer.
type CheckRow = (
    &'static str,
    &'static [u64],
    &'static str,
    u8,
    &'static str,
    u8,
    bool,
    &'static str,
    bool,
);

/// At the last three rows the digits are 8206 before the offset.
const CHECKS: [CheckRow; 19] = [
    (
        "873806385",
        ONE,
        "EABE25923",
        0xB,
        "9036",
        5,
        true,
        DECIMAL,
        true,
    ),
    (
        "46608135031",
        TWO,
        "D",
        0xE,
        "458",
        4,
        false,
        DECIMAL,
        false,
    ),
    (
        "86950978715275",
        THREE,
        "5B2CAF443BC961A",
        0x9,
        "25844266604",
        12,
        false,
        TABLE,
        true,
    ),
    (
        "5394656",
        ONE,
        "9AA91E5FBD602AF0",
        0x8,
        "7",
        1,
        false,
        DECIMAL,
        false,
    ),
    (
        "29533790483",
        ONE,
        "A8626B9530D9FBB",
        0x6,
        "2641",
        4,
        false,
        DECIMAL,
        true,
    ),
    (
        "77473909382290",
        TWO,
        "1C13A266CEE3E302",
        0xB,
        "41741363270",
        12,
        true,
        TABLE,
        false,
    ),
    ("1760", THREE, "35CC4B342", 0x0, "", 1, true, DECIMAL, true),
    (
        "63329936",
        ONE,
        "B0E63361C8250982",
        0xB,
        "",
        1,
        true,
        DECIMAL,
        true,
    ),
    (
        "2814604",
        ONE,
        "8EC9E9057AE884C3",
        0x3,
        "625836",
        6,
        true,
        TABLE,
        true,
    ),
    (
        "5320345792556403",
        TWO,
        "5FE19B5FBEE1709",
        0x8,
        "371850875294318",
        16,
        true,
        DECIMAL,
        false,
    ),
    (
        "342383",
        THREE,
        "A04293E91",
        0xA,
        "33515",
        6,
        true,
        DECIMAL,
        true,
    ),
    (
        "146224529391865",
        ONE,
        "70D8666BA",
        0xE,
        "7",
        4,
        true,
        TABLE,
        false,
    ),
    (
        "117271634497881",
        THREE,
        "4EADECDBADC597F",
        0x6,
        "854",
        4,
        true,
        TABLE,
        true,
    ),
    (
        "1116404785678952",
        THREE,
        "81457188B",
        0x5,
        "",
        4,
        false,
        DECIMAL,
        false,
    ),
    (
        "13059200",
        ONE,
        "2B53213C1",
        0xC,
        "49358",
        6,
        true,
        DECIMAL,
        true,
    ),
    (
        "151874280767867",
        ONE,
        "A72BE832A",
        0x0,
        "79074",
        6,
        false,
        DECIMAL,
        false,
    ),
    (
        "1234",
        ZERO,
        "0000000000000000",
        0x0,
        "3038",
        4,
        false,
        DECIMAL,
        true,
    ),
    (
        "1234",
        ZERO,
        "0000000000000000",
        0x0,
        "",
        4,
        false,
        DECIMAL,
        false,
    ),
    (
        "9876",
        ZERO,
        "0000000000000000",
        0x0,
        "",
        4,
        false,
        DECIMAL,
        false,
    ),
];

/// A block under a key, or under two.
fn block_command(row: &BlockRow) -> Option<Command> {
    let (form, _, customer, pad, _, second, data, _, _) = *row;
    let key = KeyName::read(b"FIRST")?;
    let second = if second.is_empty() {
        None
    } else {
        KeyName::read(b"SECOND")
    };
    let xor = match data {
        Some(data) => Some(Block(data.to_be_bytes())),
        None => None,
    };
    let customer = nibbles(customer);
    Some(Command::Pin(PinRequest::Block(BlockRequest {
        form,
        key,
        second,
        xor,
        customer,
        pad,
    })))
}

fn check_command(row: &CheckRow) -> Option<Command> {
    let (_, _, validation, pad, offset, count, no_zero, table, _) = *row;
    Some(Command::Pin(PinRequest::Check(CheckRequest {
        key: KeyName::read(b"FIRST")?,
        validation: nibbles(validation),
        pad,
        offset: nibbles(offset),
        count,
        no_zero,
        table: nibbles(table),
    })))
}

fn block_outcome(row: &BlockRow) -> Option<Outcome> {
    let (_, digits, _, _, first, second, _, place, _) = *row;
    let command = block_command(row)?;
    let first = key_of(first)?;
    let second = key_of(second);
    let mut seed = [0; 32];
    for i in 0..32 {
        seed[i] = i as u8;
    }
    let mut words = [0; 14];
    fill_words(&seed, place, &mut words);
    Some(run(
        &StandardWork,
        &command,
        &pin(digits),
        &first,
        second.as_ref(),
        &words,
    ))
}

fn check_outcome(row: &CheckRow) -> Option<Outcome> {
    let (digits, key, _, _, _, _, _, _, _) = *row;
    let command = check_command(row)?;
    let key = key_of(key)?;
    Some(run(&StandardWork, &command, &pin(digits), &key, None, &[0; 14]))
}

#[test]
fn blocks(rt: HostRuntime) {
    for (place, row) in BLOCKS.iter().enumerate() {
        let block = Block(row.8.to_be_bytes());
        assert_eq!(rt;
            block_outcome(row),
            Some(Outcome::Answered(PinAnswer::Block(block))),
            "row {place}"
        );
    }
}

#[test]
fn checks(rt: HostRuntime) {
    for (place, row) in CHECKS.iter().enumerate() {
        assert_eq!(rt;
            check_outcome(row),
            Some(Outcome::Answered(PinAnswer::Checked(row.8))),
            "row {place}"
        );
    }
}

/// Of a form, a PIN, customer data, a second key and XOR data, the form comes first, then the data, then the length.
#[test]
fn refused_blocks(rt: HostRuntime) {
    let unsupported = Outcome::NotAdmitted(AdmitFault::FormatNotSupported);
    let unfit = Outcome::NotAdmitted(AdmitFault::InvalidData);
    let wrong_length = Outcome::NotReady(PinFault::LengthError);
    let rows = [
        (Form::Iso2, "123", "", NONE, Some(DATA), unsupported),
        (
            Form::Iso4,
            "1234",
            "543210123456789",
            NONE,
            None,
            unsupported,
        ),
        (Form::Iso0, "1234", "54321012345", NONE, None, unfit),
        (
            Form::Iso0,
            "1234",
            "5432101234567890123F",
            NONE,
            None,
            unfit,
        ),
        (Form::Iso1, "1234", "012345678", NONE, None, unfit),
        (Form::Iso1, "1234", "012345678A", NONE, None, unfit),
        (Form::Iso3, "123", "54321012345678A", NONE, None, unfit),
        (Form::Ibm3624, "1234", "0", NONE, None, unfit),
        (Form::Diebold, "1234", "0", NONE, None, unfit),
        (Form::DieboldCo, "1234", "", NONE, None, unfit),
        (Form::DieboldCo, "1234", "00", NONE, None, unfit),
        (Form::Diebold, "123", "", NONE, Some(DATA), unfit),
        (
            Form::Iso0,
            "123",
            "543210123456",
            ONE,
            Some(DATA),
            wrong_length,
        ),
        (
            Form::Iso0,
            "1234567890123",
            "543210123456789",
            NONE,
            None,
            wrong_length,
        ),
        (
            Form::Iso1,
            "1234567890123",
            "0123456789",
            NONE,
            None,
            wrong_length,
        ),
        (
            Form::Iso3,
            "1234567890123",
            "543210123456789",
            NONE,
            None,
            wrong_length,
        ),
        (Form::Ibm3624, "123", "", NONE, None, wrong_length),
        (
            Form::DieboldCo,
            "1234567890123",
            "F",
            NONE,
            None,
            wrong_length,
        ),
    ];
    for (form, digits, customer, second, data, wanted) in rows {
        let row = (form, digits, customer, 0xF, ONE, second, data, 0, 0);
        assert_eq!(rt;
            block_outcome(&row),
            Some(wanted),
            "{form:?}, PIN {digits}, customer data {customer}"
        );
    }
}

#[test]
fn refused_checks(rt: HostRuntime) {
    let unfit = Outcome::NotAdmitted(AdmitFault::InvalidData);
    let wrong_length = Outcome::NotReady(PinFault::LengthError);
    let rows = [
        ("1234", "", 0, unfit),
        ("1234", "", 17, unfit),
        ("1234", "12345", 4, unfit),
        ("1234", "1234", 5, wrong_length),
        ("", "", 1, wrong_length),
    ];
    for (digits, offset, count, wanted) in rows {
        let row = (digits, ZERO, "0", 0xF, offset, count, true, DECIMAL, false);
        assert_eq!(rt;
            check_outcome(&row),
            Some(wanted),
            "PIN {digits}, offset {offset}, count {count}"
        );
    }
}

#[test]
fn no_extra_is_admitted(rt: HostRuntime) {
    if let (Some(name), Some(key)) = (KeyName::read(b"FIRST"), key_of(ZERO)) {
        let command = Command::Pin(PinRequest::Extra(ExtraRequest {
            kind: 1,
            key: name,
            body: Octets::empty(rt.alloc()),
        }));
        let outcome = run(&StandardWork, &command, &pin("1234"), &key, None, &[0; 14]);
        assert_eq!(rt; outcome, Outcome::NotAdmitted(AdmitFault::UnsuppCommand));
    }
}
