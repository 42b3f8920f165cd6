//! Values of keys, joined.
ghost use Rattle.std.specs.Prelude.{◌≡◌, ◌↔◌, IfSome, IsSome, length};
ghost use Rattle.pad_words.specs.Bytes.{exclusive_or};

use arrayvec::ArrayVec;
use key_attributes::KeyValue;
use pad_words::exclusive_or;

/// The exclusive or of two key values, byte by byte. None exactly where their lengths differ.
pub fn xor(a: &KeyValue, b: &KeyValue) -> Option<KeyValue>
    ensures same_length { IsSome result ↔ (length a.now ≡ length b.now) }
    ensures value { IfSome result (λ value. value ≡ exclusive_or a.now b.now) }
{
    if a.bytes().len() != b.bytes().len() {
        return None;
    }
    match ArrayVec::<u8, 24>::try_from(a.bytes()) {
        Ok(mut bytes) => {
            exclusive_or(bytes.as_mut_slice(), b.bytes());
            KeyValue::new(bytes.as_slice())
        }
        Err(_) => unreachable!(),
    }
}
