//! What holds of the words of keys.
ghost use Rattle.std.specs.Prelude.{◌≡◌, ◌↔◌, ℕ, List, Some, IsTrue};
ghost use Rattle.key_source.specs.declared.Key.{Key};
ghost use Rattle.key_source.specs.Keys.{is_key};
ghost use Rattle.key_source.specs.KeyWords.{key_text, read_key};

/// The word of each key that there is is read as that key, and a word is read as a key only where it is the key's.
pub fn words_are_read_again()
    ensures again { (key : Key) → IsTrue (is_key key) → read_key (key_text key) ≡ Some key }
    ensures exact { (word : List ℕ) (key : Key) → (read_key word ≡ Some key) ↔ (IsTrue (is_key key) × (word ≡ key_text key)) }
{}
