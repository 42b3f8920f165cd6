//! A line cut into words. What is left of a line is nothing, or begins with the space in front of its next word.
ghost use Rattle.std.specs.Prelude.{◌≡◌, ◌≤◌, ◌==◌, length, Some, None, if◌then◌else◌};
ghost use Rattle.std.specs.Str.{bytes_eq};
ghost use Rattle.script_lang.specs.Reading.{word_len, next_word, IsNextWord};

// how many bytes stand before the first space
pub fn word_len(text: &[u8]) -> usize
    ensures exact { result ≡ word_len text.now }
    ensures bound { result ≤ length text.now }
{
    text.iter().position(|&b| b == b' ').unwrap_or(text.len())
}

// the word behind one space, and what is left after it
#[tactic(auto, unfolding(crate::specs::Reading::next_word))]
pub fn next_word(text: &[u8]) -> Option<(&[u8], &[u8])>
    ensures { IsNextWord result (next_word text.now) }
{
    match text {
        [b' ', rest @ ..] => Some(rest.split_at(word_len(rest))),
        _ => None,
    }
}

// the text is this word
pub fn is(text: &[u8], word: &str) -> bool
    ensures { result ≡ bytes_eq text.now word.now }
{
    text == word.as_bytes()
}

// no byte is left
pub fn ended(rest: &[u8]) -> Option<()>
    ensures { result ≡ if length rest.now == 0 then Some tt else None }
{
    if rest.is_empty() { Some(()) } else { None }
}
