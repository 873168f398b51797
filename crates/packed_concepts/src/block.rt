//! The first bytes of a text as a block.

ghost use Rattle.std.specs.Prelude.{◌≡◌, ◌+◌, ◌≤◌, ◌++◌, length, take};

/// The number of bytes of a block.
pub const BLOCK_BYTES: usize = 16;

/// The first bytes of a text, filled up to a block. It is put down in one move.
#[derive(Clone, Copy)]
pub struct TextBlock {
    /// The bytes.
    pub bytes: [u8; BLOCK_BYTES],
    /// How many of them are filled, from the first on.
    pub filled: u32,
}

/// Puts the bytes that fill the block at `start` and returns their end. The bytes behind them are left undefined.
pub fn put_block(text: &mut [u8], start: usize, block: &TextBlock) -> usize
    requires filled { block.now.filled ≤ BLOCK_BYTES }
    requires room { start + BLOCK_BYTES ≤ length text.old }
    ensures text { take result text.new ≡ take start text.old ++ take block.now.filled block.now.bytes }
    ensures ends { result ≡ start + block.now.filled }
    ensures room { length text.new ≡ length text.old }
{
    let bytes = block.bytes;
    text[start..start + BLOCK_BYTES].copy_from_slice(&bytes);
    start + block.filled as usize
}
