use crate::{Key, Mask, words_are_read_again};
use std::test::Fail;

// the words of keys in the order of the key bits
const WORDS: &[&str] = &[
    "0", "1", "2", "3", "4", "5", "6", "7", "8", "9", "A", "B", "C", "D", "E", "F", "enter",
    "cancel", "clear", "back", "help",
];

// the words of function descriptor keys in the order of their bits
const FDK_WORDS: &[&str] = &[
    "fdk1", "fdk2", "fdk3", "fdk4", "fdk5", "fdk6", "fdk7", "fdk8", "fdk9", "fdk10", "fdk11",
    "fdk12", "fdk13", "fdk14", "fdk15", "fdk16", "fdk17", "fdk18", "fdk19", "fdk20", "fdk21",
    "fdk22", "fdk23", "fdk24", "fdk25", "fdk26", "fdk27", "fdk28", "fdk29", "fdk30", "fdk31",
    "fdk32",
];

// whether the word is read as the only key of the set, and is written of that key again
fn spells(word: &str, set: Mask) -> bool {
    let rest = Mask {
        keys: !set.keys,
        fdks: !set.fdks,
    };
    match Key::read(word.as_bytes()) {
        Some(key) => { set.has(key) && !rest.has(key) && key.text().items() == word.as_bytes() }
        None => false,
    }
}

#[test]
fn words_are_those_of_the_places(rt: HostRuntime) -> Result<(), Fail> {
    words_are_read_again();
    let mut bit = 1u32;
    for word in WORDS {
        assert!(rt;
            spells(word, Mask { keys: bit, fdks: 0 }),
            "{word} is no word of its key"
        );
        bit = bit.wrapping_mul(2);
    }
    bit = 1;
    for word in FDK_WORDS {
        assert!(rt;
            spells(word, Mask { keys: 0, fdks: bit }),
            "{word} is no word of its key"
        );
        bit = bit.wrapping_mul(2);
    }
    Ok(())
}

#[test]
fn neighbours_of_words_are_no_words(rt: HostRuntime) -> Result<(), Fail> {
    for word in [
        "",
        " ",
        "00",
        "01",
        "10",
        "a",
        "f",
        "G",
        "*",
        "-",
        "Enter",
        "ENTER",
        "ente",
        "enter ",
        " enter",
        "backspace",
        "fdk",
        "fdk0",
        "fdk00",
        "fdk01",
        "fdk032",
        "fdk33",
        "fdk100",
        "FDK1",
        "Fdk1",
        "fdk 1",
        "fdk1 ",
        "fdkA",
    ] {
        assert!(rt; Key::read(word.as_bytes()).is_none(), "{word} is read");
    }
    Ok(())
}

#[test]
fn a_number_that_no_key_has_has_no_word(rt: HostRuntime) -> Result<(), Fail> {
    for key in [
        Key::Hex(0),
        Key::Hex(9),
        Key::Hex(16),
        Key::Hex(255),
        Key::Fdk(0),
        Key::Fdk(33),
        Key::Fdk(255),
    ] {
        assert!(rt; key.text().items().is_empty());
        assert!(rt; !Mask { keys: !0, fdks: !0 }.has(key));
    }
    Ok(())
}
