ghost use Rattle.std.specs.Prelude.{◌≡◌, ◌++◌, ◌∷◌, [], List, ℕ};
ghost use Rattle.std.specs.Coded.{coded_list, coded_ℕ};
ghost use base.Fml.{ftrue};

use pad_words::Block;
use std::marker::Model;

/// The bytes of a message, as contracts alone see them: the value keeps none.
#[derive(Drop)]
pub struct Message {
    ghost bytes: { List ℕ } by { coded_list coded_ℕ },
}

impl Model for Message {
    ghost also_owns = { λ _. ftrue };
}

impl Message {
    /// No bytes.
    pub fn empty() -> Message
        ensures { result.bytes ≡ [] }
    {
        Message {}
    }

    /// These bytes and another.
    pub fn then(&self, _byte: &u8) -> Message
        ensures { result.bytes ≡ self.now.bytes ++ _byte.now ∷ [] }
    {
        Message {}
    }

    /// These bytes and those of a block.
    pub fn then_block(&self, block: Block) -> Message
        ensures { result.bytes ≡ self.now.bytes ++ block.0 }
    {
        let mut message = self.then(&block.0[0]);
        for i in 1..8 {
            message = message.then(&block.0[i]);
        }
        message
    }
}
