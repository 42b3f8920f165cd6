//! Presses and refusals, against answers written down from the rules by hand.
use crate::{Entry, EntryFault, EntryRun, Seen};
use key_source::{Key, Mask};
use pad_steps::{Command, Completion, EntryKind, EntryRules, PartRules, Shown, Verify};
use pad_words::Digit;

const DIGITS: u32 = 0x3FF;

const HEX: u32 = 0xFC00;

const ENTER: u32 = 0x1_0000;

const CANCEL: u32 = 0x2_0000;

const CLEAR: u32 = 0x4_0000;

const BACKSPACE: u32 = 0x8_0000;

const HELP: u32 = 0x10_0000;

// A PIN of 4 to 6 digits, without the digit 9. HELP and function key 2 would end it, but are not active.
const PIN: EntryRules = EntryRules {
    min: 4,
    max: 6,
    auto_end: false,
    active: Mask {
        keys: 0x1FF | ENTER | CANCEL | CLEAR | BACKSPACE,
        fdks: 1,
    },
    terminate: Mask {
        keys: ENTER | CANCEL | HELP,
        fdks: 2,
    },
};

// Data of up to 3 digits, ended by HELP, by function key 1, or by the third digit. ENTER and CANCEL do not end it.
const FIGURES: EntryRules = EntryRules {
    min: 0,
    max: 3,
    auto_end: true,
    active: Mask {
        keys: DIGITS | ENTER | CANCEL | HELP,
        fdks: 1,
    },
    terminate: Mask {
        keys: HELP,
        fdks: 1,
    },
};

// A key part of 4 digits, ended by the fourth, or given up by CANCEL.
const PART: PartRules = PartRules {
    count: 4,
    auto_end: true,
    active: Mask {
        keys: DIGITS | HEX | ENTER | CANCEL | BACKSPACE,
        fdks: 0,
    },
    terminate: Mask {
        keys: ENTER | CANCEL,
        fdks: 0,
    },
    verify: Verify::Own,
};

/// The number of an entry, a key, what it does, and the digits after it.
///
/// Keys are 0 to 9, A to F, e ENTER, c CANCEL, l CLEAR, b BACKSPACE, h HELP, x and y function keys 1 and 2. What a key
/// does is . ignored, * masked, + shown, or the end that is shown by E ENTER, C CANCEL, H HELP, X function key 1,
/// A auto, and masked by a auto.
type Row = (u8, u8, u8, &'static str);

const PRESSES: [Row; 44] = [
    // A PIN.
    (1, b'b', b'+', ""),
    (1, b'1', b'*', "1"),
    (1, b'9', b'.', "1"),
    (1, b'A', b'.', "1"),
    (1, b'e', b'.', "1"),
    (1, b'h', b'.', "1"),
    (1, b'y', b'.', "1"),
    (1, b'x', b'+', "1"),
    (1, b'2', b'*', "12"),
    (1, b'b', b'+', "1"),
    (1, b'3', b'*', "13"),
    (1, b'l', b'+', ""),
    (1, b'5', b'*', "5"),
    (1, b'6', b'*', "56"),
    (1, b'7', b'*', "567"),
    (1, b'8', b'*', "5678"),
    (1, b'0', b'*', "56780"),
    (1, b'1', b'*', "567801"),
    (1, b'2', b'.', "567801"),
    (1, b'e', b'E', "567801"),
    // Four digits are enough, and CANCEL ends at any length and leaves none.
    (2, b'4', b'*', "4"),
    (2, b'3', b'*', "43"),
    (2, b'2', b'*', "432"),
    (2, b'e', b'.', "432"),
    (2, b'c', b'C', ""),
    // Data, which are shown.
    (3, b'7', b'+', "7"),
    (3, b'c', b'+', ""),
    (3, b'e', b'+', ""),
    (3, b'1', b'+', "1"),
    (3, b'2', b'+', "12"),
    (3, b'3', b'A', "123"),
    (4, b'h', b'H', ""),
    (5, b'9', b'+', "9"),
    (5, b'x', b'X', "9"),
    // A key part, whose digits are A to F too.
    (6, b'A', b'*', "A"),
    (6, b'0', b'*', "A0"),
    (6, b'e', b'.', "A0"),
    (6, b'F', b'*', "A0F"),
    (6, b'b', b'+', "A0"),
    (6, b'c', b'C', ""),
    (7, b'F', b'*', "F"),
    (7, b'F', b'*', "FF"),
    (7, b'1', b'*', "FF1"),
    (7, b'C', b'a', "FF1C"),
];

/// The kind of an entry, its least and greatest number of digits, the key bits and function keys that are active, the
/// key bits that end it, and why it is refused.
type Asked = (EntryKind, u8, u8, u32, u32, u32, Option<EntryFault>);

const ASKED: [Asked; 16] = [
    (EntryKind::Pin, 4, 12, DIGITS, 0, ENTER, None),
    (EntryKind::Pin, 16, 0, DIGITS, 0, 0, None),
    (EntryKind::Pin, 0, 1, 0, 1, 0, None),
    (
        EntryKind::Figures,
        3,
        3,
        DIGITS | HELP,
        0,
        ENTER | CANCEL | HELP,
        None,
    ),
    (EntryKind::Part, 0, 16, DIGITS | HEX, 0, ENTER, None),
    (
        EntryKind::Pin,
        5,
        4,
        0,
        0,
        CLEAR,
        Some(EntryFault::MinimumLength),
    ),
    (
        EntryKind::Pin,
        17,
        0,
        DIGITS,
        0,
        0,
        Some(EntryFault::MinimumLength),
    ),
    (
        EntryKind::Pin,
        4,
        4,
        0,
        0,
        CLEAR,
        Some(EntryFault::NoActiveKeys),
    ),
    (
        EntryKind::Pin,
        4,
        12,
        DIGITS | HEX,
        0,
        0,
        Some(EntryFault::KeyNotSupported),
    ),
    (
        EntryKind::Figures,
        4,
        12,
        DIGITS,
        0,
        0x400,
        Some(EntryFault::KeyNotSupported),
    ),
    (
        EntryKind::Figures,
        4,
        12,
        0x20_0000,
        0,
        0,
        Some(EntryFault::KeyNotSupported),
    ),
    (
        EntryKind::Pin,
        4,
        12,
        DIGITS,
        0,
        0x8000_0000,
        Some(EntryFault::KeyNotSupported),
    ),
    (
        EntryKind::Pin,
        4,
        12,
        DIGITS,
        0,
        CLEAR,
        Some(EntryFault::KeyNotSupported),
    ),
    (
        EntryKind::Pin,
        4,
        12,
        DIGITS,
        0,
        BACKSPACE,
        Some(EntryFault::KeyNotSupported),
    ),
    (
        EntryKind::Part,
        0,
        16,
        DIGITS,
        0,
        1,
        Some(EntryFault::KeyNotSupported),
    ),
    (
        EntryKind::Part,
        0,
        16,
        DIGITS,
        0,
        HEX,
        Some(EntryFault::KeyNotSupported),
    ),
];

fn key_of(name: u8) -> Key {
    match name {
        b'0'..=b'9' => Key::Digit(Digit { value: name - b'0' }),
        b'A'..=b'F' => Key::Hex(name - b'A' + 10),
        b'e' => Key::Enter,
        b'c' => Key::Cancel,
        b'l' => Key::Clear,
        b'b' => Key::Backspace,
        b'h' => Key::Help,
        b'x' => Key::Fdk(1),
        _ => Key::Fdk(2),
    }
}

fn seen_of(name: u8, key: Key) -> Seen {
    match name {
        b'.' => Seen::Ignored,
        b'*' => Seen::Took(Shown::Masked),
        b'+' => Seen::Took(Shown::Plain(key)),
        b'E' => Seen::Ended(Shown::Plain(key), Completion::Enter),
        b'C' => Seen::Ended(Shown::Plain(key), Completion::Cancel),
        b'H' => Seen::Ended(Shown::Plain(key), Completion::Help),
        b'X' => Seen::Ended(Shown::Plain(key), Completion::Fdk(1)),
        b'A' => Seen::Ended(Shown::Plain(key), Completion::Auto),
        _ => Seen::Ended(Shown::Masked, Completion::Auto),
    }
}

// Whether the digits are those of this text.
fn are_spelled(digits: &[u8], text: &str) -> bool {
    let names = text.as_bytes();
    digits.len() == names.len()
        && digits.iter().zip(names).all(|(&digit, &name)| match name {
            b'0'..=b'9' => digit == name - b'0',
            b'A'..=b'F' => digit == name - b'A' + 10,
            _ => false,
        })
}

fn entry_of(number: u8) -> Option<Entry> {
    match number {
        1 | 2 => Entry::of(&Command::GetPin(PIN)),
        3..=5 => Entry::of(&Command::GetData(FIGURES)),
        _ => Entry::of(&Command::SecureKeyEntry(PART)),
    }
}

fn started(number: u8) -> Option<EntryRun> {
    match EntryRun::start(entry_of(number)?) {
        Ok(run) => Some(run),
        Err(_) => None,
    }
}

fn asked(kind: EntryKind, min: u8, max: u8, active: Mask, terminate: Mask) -> Option<Entry> {
    let rules = EntryRules {
        min,
        max,
        auto_end: false,
        active,
        terminate,
    };
    if max > 16 {
        return None;
    }
    Some(Entry::by(kind, &rules))
}

#[test]
fn refusals(rt: HostRuntime) {
    for (place, (kind, min, max, active, fdks, ends, refusal)) in ASKED.into_iter().enumerate() {
        let active = Mask { keys: active, fdks };
        let terminate = Mask {
            keys: ends,
            fdks: 0,
        };
        match asked(kind, min, max, active, terminate) {
            Some(entry) => assert_eq!(rt; entry.refusal(), refusal, "row {place}"),
            None => assert!(rt; false, "row {place} is too long"),
        }
    }
}

#[test]
fn masked_keys(rt: HostRuntime) {
    for (number, name, masked) in [
        (1, b'4', true),
        (1, b'9', false),
        (1, b'e', false),
        (3, b'4', false),
        (6, b'4', false),
    ] {
        match started(number) {
            Some(run) => assert_eq!(rt; run.is_masked(key_of(name)), masked, "entry {number}"),
            None => assert!(rt; false, "entry {number} is refused"),
        }
    }
}

#[test]
fn presses(rt: HostRuntime) {
    let mut current = 0;
    let mut running = None;
    for (place, (number, name, does, digits)) in PRESSES.into_iter().enumerate() {
        if number != current {
            running = started(number);
            current = number;
        }
        let key = key_of(name);
        match &mut running {
            Some(run) => {
                assert_eq!(rt; run.press(key), seen_of(does, key), "press {place}");
                assert!(rt; are_spelled(run.digits().items(), digits), "press {place}");
            }
            None => assert!(rt; false, "entry {number} is refused"),
        }
    }
}
