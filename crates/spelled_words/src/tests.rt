use crate::{Spelled, value_of, word_of};
use std::test::Fail;

const NUMBERS: [Spelled<u8>; 3] = [Spelled(1, "one"), Spelled(2, "two"), Spelled(12, "twelve")];

#[test]
fn words_are_read_and_written(rt: HostRuntime) -> Result<(), Fail> {
    for (value, word) in [(1, "one"), (2, "two"), (12, "twelve")] {
        assert!(rt;
            value_of(&NUMBERS, word.as_bytes()) == Some(value),
            "{word} is not read"
        );
        assert!(rt; word_of(&NUMBERS, value) == word, "{word} is not written");
    }
    assert!(rt; word_of(&NUMBERS, 3) == "");
    for word in ["", "On", "one ", "twelv", "three"] {
        assert!(rt;
            value_of(&NUMBERS, word.as_bytes()).is_none(),
            "{word} is read"
        );
    }
    Ok(())
}
