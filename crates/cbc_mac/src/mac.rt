ghost use Rattle.std.specs.Prelude.{◌≡◌, ◌+◌, ◌%◌, ◌<◌, ◌≤◌, ◌++◌, [], ◌∷◌, length, take, IfOk, is_ok};
ghost use Rattle.pad_words.specs.Bytes.{exclusive_or};
ghost use Rattle.des_core.specs.Des.{des_back_bytes, des_bytes};

use crate::blocks::padded_block;
use crate::message::Message;
use des_core::{BadLength, Des, PermutedBlock, block_at};
use pad_words::Block;
use std::marker::Model;

/// How a message is authenticated.
#[derive(Clone, Copy, Debug, PartialEq, Eq)]
pub enum MacKind {
    /// By one key of eight bytes, in the manner of ANSI X9.9.
    Single,

    /// By a key of sixteen bytes, whose right half is used at the end alone, in the manner of ANSI X9.19.
    Retail,
}

/// The cipher block behind another in a chain, in the order of the rounds.
fn sealed(key: &Des, block: Block, chained: &PermutedBlock) -> PermutedBlock
    ensures { result ≡ des_bytes key.now (exclusive_or block.0 chained.now) }
{
    key.encrypt_permuted(&PermutedBlock::new(block).exclusive_or(chained))
}

/// A block decrypted under the right half of a key and encrypted under the left one, as it ends a code by two keys.
fn under_both(left: &Des, right: &Des, block: Block) -> Block
    ensures { result.0 ≡ des_bytes left.now (des_back_bytes right.now block.0) }
{
    left.encrypt(right.decrypt(block))
}

/// A message authentication code in the making, seen as its kind, its key and the message that was fed.
#[derive(Drop)]
pub struct Mac {
    left: Des,
    right: Option<Des>,
    chained: PermutedBlock,
    held: [u8; 8],
    held_count: usize,
    message: Message,
}

impl Model for Mac {
    ghost use Rattle.cbc_mac.specs.Macs.{Fed, IsKept, kind_of, key_of};

    ghost Value = { Fed };

    ghost view = { λ m. record { kind = kind_of m.right; key = key_of m.left m.right; message = m.message.bytes } };

    ghost invariant = { λ m. IsKept m.left m.chained m.held m.held_count m.message.bytes };
}

impl Mac {
    ghost use Rattle.cbc_mac.specs.Macs.{Fed, code_of, is_mac_key_length, mac};

    /// The code of a message of which nothing was fed yet.
    pub fn new(kind: MacKind, key: &[u8]) -> Result<Mac, BadLength>
        ensures value { IfOk result (λ m. m ≡ record { kind = kind; key = key.now; message = [] }) }
        ensures accepted { is_ok result ≡ is_mac_key_length kind (length key.now) }
    {
        let right = match kind {
            MacKind::Single if key.len() == 8 => None,
            MacKind::Retail if key.len() == 16 => Some(Des::new(block_at(key, 8))),
            _ => return Err(BadLength),
        };
        let held = [0; 8];
        Ok(Mac {
            left: Des::new(block_at(key, 0)),
            right,
            chained: PermutedBlock::new(Block([0; 8])),
            held,
            held_count: 0,
            message: Message::empty(),
        })
    }

    /// More of the message, in pieces of any length. Whole blocks go from the piece into the chain, and only the bytes
    /// before the first and behind the last of them are held.
    pub fn feed(&mut self, bytes: &[u8])
        ensures { self.new ≡ record self.old { message = self.old.message ++ bytes.now } }
    {
        let (front, bytes) = bytes.split_at(self.count_to_whole(bytes.len()));
        self.feed_bytes(front);
        let (blocks, rest) = bytes.split_at(bytes.len() / 8 * 8);
        self.feed_blocks(blocks);
        self.feed_bytes(rest);
    }

    /// How many of so many bytes are fed one by one, until the message is whole blocks.
    fn count_to_whole(&self, count: usize) -> usize
        ensures bound { result ≤ count }
        ensures whole { result < count → (length self.now.message + result) % 8 ≡ 0 }
    {
        if self.held_count == 0 {
            0
        } else {
            (8 - self.held_count).min(count)
        }
    }

    fn feed_bytes(&mut self, bytes: &[u8])
        ensures { self.new ≡ record self.old { message = self.old.message ++ bytes.now } }
    {
        for byte in bytes {
            self.feed_byte(*byte);
        }
    }

    fn feed_blocks(&mut self, bytes: &[u8])
        requires multiple { length bytes.now % 8 ≡ 0 }
        requires whole { 0 < length bytes.now → length self.old.message % 8 ≡ 0 }
        ensures { self.new ≡ record self.old { message = self.old.message ++ bytes.now } }
    {
        for i in 0..bytes.len() / 8 {
            self.feed_block(block_at(bytes, 8 * i));
        }
    }

    fn feed_block(&mut self, block: Block)
        requires { length self.old.message % 8 ≡ 0 }
        ensures { self.new ≡ record self.old { message = self.old.message ++ block.0 } }
    {
        self.chained = sealed(&self.left, block, &self.chained);
        self.message = self.message.then_block(block);
    }

    fn feed_byte(&mut self, byte: u8)
        ensures { self.new ≡ record self.old { message = self.old.message ++ byte ∷ [] } }
    {
        self.held[self.held_count] = byte;
        self.held_count += 1;
        if self.held_count == 8 {
            self.chained = sealed(&self.left, Block(self.held), &self.chained);
            self.held_count = 0;
        }
        self.message = self.message.then(&byte);
    }

    /// The last cipher block of the chain, the last block of the message filled with the padding byte where it is not whole.
    fn last_cipher_block(&self, pad: u8) -> Block
        ensures { result.0 ≡ mac des_bytes (take 8 self.now.key) self.now.message pad }
    {
        if self.held_count == 0 {
            return self.chained.block();
        }
        let block = padded_block(self.held, self.held_count, pad);
        sealed(&self.left, block, &self.chained).block()
    }

    /// The code of the message, padded to whole blocks.
    pub fn end(self, pad: u8) -> Block
        ensures { result.0 ≡ code_of self.kind self.key self.message pad }
    {
        let last = self.last_cipher_block(pad);
        match &self.right {
            None => last,
            Some(right) => under_both(&self.left, right, last),
        }
    }
}
