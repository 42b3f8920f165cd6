ghost use Rattle.std.specs.Prelude.{◌≡◌, ◌%◌, length};
ghost use Rattle.std.specs.List.{concat};
ghost use Rattle.pad_words.specs.Bytes.{exclusive_or};
ghost use Rattle.des_core.specs.TripleDes.{tdea_bytes, tdea_back_bytes};
ghost use Rattle.cbc_mac.specs.Modes.{cbc, cbc_back, tdea_block, tdea_ecb, tdea_cbc, blocks_of};

use crate::blocks::{ThreeBlocks, exclusive_or, put_block, put_three, three_at};
use des_core::{PermutedBlock, Tdea, block_at};
use pad_words::{Block, Direction};

/// A block encrypted or decrypted.
fn turned(key: &Tdea, way: Direction, block: Block) -> Block
    ensures { result.0 ≡ tdea_block way key.now block.0 }
{
    match way {
        Direction::Encrypt => key.encrypt(block),
        Direction::Decrypt => key.decrypt(block),
    }
}

/// Three blocks encrypted or decrypted, side by side.
fn three_turned(key: &Tdea, way: Direction, blocks: ThreeBlocks) -> ThreeBlocks
    ensures first { result.first.0 ≡ tdea_block way key.now blocks.first.0 }
    ensures second { result.second.0 ≡ tdea_block way key.now blocks.second.0 }
    ensures third { result.third.0 ≡ tdea_block way key.now blocks.third.0 }
{
    let permuted = [
        PermutedBlock::new(blocks.first),
        PermutedBlock::new(blocks.second),
        PermutedBlock::new(blocks.third),
    ];
    let turned = match way {
        Direction::Encrypt => key.encrypt_three(&permuted),
        Direction::Decrypt => key.decrypt_three(&permuted),
    };
    ThreeBlocks {
        first: turned[0].block(),
        second: turned[1].block(),
        third: turned[2].block(),
    }
}

/// Electronic codebook of triple DES (FIPS 81), in place: each block by itself, three at a time.
pub fn ecb(key: &Tdea, way: Direction, buf: &mut [u8])
    requires { length buf.old % 8 ≡ 0 }
    ensures { buf.new ≡ concat (tdea_ecb way key.now (blocks_of buf.old)) }
{
    let threes = buf.len() / 24;
    for i in 0..threes {
        let blocks = three_at(buf, 24 * i);
        put_three(buf, 24 * i, three_turned(key, way, blocks));
    }
    for i in 3 * threes..buf.len() / 8 {
        let block = block_at(buf, 8 * i);
        put_block(buf, 8 * i, turned(key, way, block));
    }
}

/// Cipher block chaining of triple DES (FIPS 81), in place, from a start value.
pub fn cbc(key: &Tdea, way: Direction, start: Block, buf: &mut [u8])
    requires { length buf.old % 8 ≡ 0 }
    ensures { buf.new ≡ concat (tdea_cbc way key.now start.0 (blocks_of buf.old)) }
{
    match way {
        Direction::Encrypt => cbc_encrypt(key, start, buf),
        Direction::Decrypt => cbc_decrypt(key, start, buf),
    }
}

/// Each block is joined with the cipher block before it, the first with the start value, and encrypted. The chain stays in
/// the order of the rounds.
fn cbc_encrypt(key: &Tdea, start: Block, buf: &mut [u8])
    requires { length buf.old % 8 ≡ 0 }
    ensures { buf.new ≡ concat (cbc (tdea_bytes key.now) start.0 (blocks_of buf.old)) }
{
    let mut before = PermutedBlock::new(start);
    for i in 0..buf.len() / 8 {
        let block = PermutedBlock::new(block_at(buf, 8 * i));
        before = key.encrypt_permuted(&block.exclusive_or(&before));
        put_block(buf, 8 * i, before.block());
    }
}

/// Three plain blocks: three cipher blocks decrypted, each joined with the cipher block before it.
fn three_unchained(key: &Tdea, before: Block, blocks: ThreeBlocks) -> ThreeBlocks
    ensures first { result.first.0 ≡ exclusive_or (tdea_back_bytes key.now blocks.first.0) before.0 }
    ensures second { result.second.0 ≡ exclusive_or (tdea_back_bytes key.now blocks.second.0) blocks.first.0 }
    ensures third { result.third.0 ≡ exclusive_or (tdea_back_bytes key.now blocks.third.0) blocks.second.0 }
{
    let turned = three_turned(key, Direction::Decrypt, blocks);
    ThreeBlocks {
        first: exclusive_or(turned.first, before),
        second: exclusive_or(turned.second, blocks.first),
        third: exclusive_or(turned.third, blocks.second),
    }
}

/// Each block is decrypted, and joined with the cipher block before it, the first with the start value; three at a time.
fn cbc_decrypt(key: &Tdea, start: Block, buf: &mut [u8])
    requires { length buf.old % 8 ≡ 0 }
    ensures { buf.new ≡ concat (cbc_back (tdea_back_bytes key.now) start.0 (blocks_of buf.old)) }
{
    let threes = buf.len() / 24;
    let mut before = start;
    for i in 0..threes {
        let blocks = three_at(buf, 24 * i);
        put_three(buf, 24 * i, three_unchained(key, before, blocks));
        before = blocks.third;
    }
    for i in 3 * threes..buf.len() / 8 {
        let block = block_at(buf, 8 * i);
        put_block(buf, 8 * i, exclusive_or(key.decrypt(block), before));
        before = block;
    }
}
