//! Values that are spelled by one word each: a table, its reader and its writer.
#![tactic(auto)]

ghost use Rattle.std.specs.Prelude.{◌≡◌};
ghost use Rattle.spelled_words.specs.Tables.{rows, value_of, word_of};

/// A row of a table: a value, and the word that spells it.
#[derive(Clone, Copy)]
pub struct Spelled<T>(pub T, pub &'static str);

/// The value that this word spells. None where no row has the word.
pub fn value_of<T: Copy>(table: &[Spelled<T>], word: &[u8]) -> Option<T>
    ensures { result ≡ value_of (rows table.now) word.now }
{
    for row in table {
        if word == row.1.as_bytes() {
            return Some(row.0);
        }
    }
    None
}

/// The word that spells this value. Empty where no row has the value.
pub fn word_of<T: Copy + PartialEq>(table: &[Spelled<T>], value: T) -> &'static str
    ensures { result.now ≡ word_of T.eq (rows table.now) value }
{
    for row in table {
        if value == row.0 {
            return row.1;
        }
    }
    ""
}

#[cfg(test)]
mod tests;
