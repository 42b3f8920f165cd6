ghost use Rattle.std.specs.Prelude.{◌≡◌, ◌+◌, ◌-◌, ◌≤◌, ◌++◌, length, replicate, take, drop};
ghost use Rattle.pad_words.specs.Bytes.{exclusive_or};

use des_core::block_at;
use pad_words::Block;

/// The exclusive or of two blocks.
pub fn exclusive_or(a: Block, b: Block) -> Block
    ensures { result.0 ≡ exclusive_or a.0 b.0 }
{
    let mut out = a.0;
    pad_words::exclusive_or(&mut out, &b.0);
    Block(out)
}

/// Writes a block over the eight bytes from `at` on.
pub fn put_block(bytes: &mut [u8], at: usize, block: Block)
    requires { at + 8 ≤ length bytes.old }
    ensures { bytes.new ≡ take at bytes.old ++ block.0 ++ drop (at + 8) bytes.old }
{
    bytes[at..at + 8].copy_from_slice(&block.0);
}

/// Three blocks in a row.
#[derive(Clone, Copy)]
pub struct ThreeBlocks {
    pub first: Block,
    pub second: Block,
    pub third: Block,
}

/// The three blocks from `at` on.
pub fn three_at(bytes: &[u8], at: usize) -> ThreeBlocks
    requires { at + 24 ≤ length bytes.now }
    ensures first { result.first.0 ≡ take 8 (drop at bytes.now) }
    ensures second { result.second.0 ≡ take 8 (drop (at + 8) bytes.now) }
    ensures third { result.third.0 ≡ take 8 (drop (at + 16) bytes.now) }
{
    ThreeBlocks {
        first: block_at(bytes, at),
        second: block_at(bytes, at + 8),
        third: block_at(bytes, at + 16),
    }
}

/// Writes three blocks over the 24 bytes from `at` on.
pub fn put_three(bytes: &mut [u8], at: usize, blocks: ThreeBlocks)
    requires { at + 24 ≤ length bytes.old }
    ensures { let three = blocks.first.0 ++ blocks.second.0 ++ blocks.third.0 in
        bytes.new ≡ take at bytes.old ++ three ++ drop (at + 24) bytes.old }
{
    put_block(bytes, at, blocks.first);
    put_block(bytes, at + 8, blocks.second);
    put_block(bytes, at + 16, blocks.third);
}

/// The first `count` bytes, and the padding byte behind them.
pub fn padded_block(bytes: [u8; 8], count: usize, pad: u8) -> Block
    requires { count ≤ 8 }
    ensures { result.0 ≡ take count bytes ++ replicate (8 - count) pad }
{
    let mut block = bytes;
    block[count..].fill(pad);
    Block(block)
}
