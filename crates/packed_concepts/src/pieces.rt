//! Texts that are put down often, in pieces of fixed length.

ghost use Rattle.std.specs.Prelude.{◌≡◌, ◌+◌, ◌<◌, ◌≤◌, ◌++◌, [], min, IfOk, length, map, take, drop, slice_index_or};
ghost use Rattle.packed_concepts.specs.Pieces.{IsPiece, ArePieces, piece_text, piece_texts};

use crate::block::{BLOCK_BYTES, TextBlock, put_block};
use fca_model::{MAX_NAME_BYTES, Memory};
use std::alloc::Global;
use std::marker::Model;

/// The most bytes of a piece: a name, a comma and a space.
pub const PIECE_BYTES: usize = MAX_NAME_BYTES + 2;

/// The bytes to be free where a piece is put down.
pub const PIECE_ROOM: usize = PIECE_BYTES + BLOCK_BYTES;

/// Texts that are put down often: of each a block, and the bytes behind it if the block is full. Blocks and tails stand in lists of their own, so the blocks of
/// many short texts lie close together.
#[derive(Drop)]
pub struct Pieces {
    blocks: Vec<TextBlock>,
    tails: Vec<Vec<u8>>,
}

impl Model for Pieces {
    ghost use Rattle.std.specs.Prelude.{List, ℕ, map};
    ghost use Rattle.packed_concepts.specs.Pieces.{ArePieces, piece_texts};

    ghost Value = { List (List ℕ) };

    ghost view = { λ p. piece_texts p.blocks.items (map (λ v. v.items) p.tails.items) };

    ghost invariant = { λ p. ArePieces p.blocks.items (map (λ v. v.items) p.tails.items) };
}

impl Pieces {
    /// The texts of these blocks and tails.
    pub fn new(blocks: Vec<TextBlock>, tails: Vec<Vec<u8>>) -> Pieces
        requires { ArePieces blocks.items (map (λ v. v.items) tails.items) }
        ensures { result ≡ piece_texts blocks.items (map (λ v. v.items) tails.items) }
    {
        Pieces { blocks, tails }
    }

    /// The number of texts.
    pub fn len(&self) -> usize
        ensures { result ≡ length self.now }
    {
        self.blocks.len()
    }

    /// About the number of bytes of a text.
    pub(crate) fn mean(&self) -> usize {
        let mut bytes = 0usize;
        for (block, tail) in self.blocks.iter().zip(&self.tails) {
            bytes = bytes
                .saturating_add(block.filled as usize)
                .saturating_add(tail.len());
        }
        bytes / self.len().max(1)
    }

    /// Puts text i at `start` and returns its end. The bytes behind it are left undefined.
    pub fn put(&self, i: usize, text: &mut [u8], start: usize) -> usize
        requires inside { i < length self.now }
        requires room { start + PIECE_ROOM ≤ length text.old }
        ensures text { take result text.new ≡ take start text.old ++ slice_index_or self.now i [] }
        ensures begins { start ≤ result }
        ensures ends { result ≤ start + PIECE_BYTES }
        ensures room { length text.new ≡ length text.old }
    {
        put_piece(&self.blocks[i], &self.tails[i], text, start)
    }
}

/// Puts the text of the block and the tail at `start` and returns its end. The tail is looked at only if the block is full.
fn put_piece(block: &TextBlock, tail: &Vec<u8>, text: &mut [u8], start: usize) -> usize
    requires piece { IsPiece block.now tail.now.items }
    requires room { start + PIECE_ROOM ≤ length text.old }
    ensures text { take result text.new ≡ take start text.old ++ piece_text block.now tail.now.items }
    ensures begins { start ≤ result }
    ensures ends { result ≤ start + PIECE_BYTES }
    ensures room { length text.new ≡ length text.old }
{
    let end = put_block(text, start, block);
    if (block.filled as usize) < BLOCK_BYTES {
        return end;
    }
    put_bytes(text, end, tail)
}

/// The block of the first bytes of the text.
pub fn block_of(text: &[u8]) -> TextBlock
    ensures filled { result.filled ≡ min (length text.now) BLOCK_BYTES }
    ensures bytes { take result.filled result.bytes ≡ take BLOCK_BYTES text.now }
{
    let filled = text.len().min(BLOCK_BYTES);
    let mut bytes = [0; BLOCK_BYTES];
    bytes[..filled].copy_from_slice(&text[..filled]);
    TextBlock {
        bytes,
        filled: filled as u32,
    }
}

/// The bytes of the text behind the block.
pub fn tail_of(alloc: Global, text: &[u8]) -> Result<Vec<u8>, Memory>
    ensures { IfOk result (λ tail. tail.items ≡ drop BLOCK_BYTES text.now) }
{
    let filled = text.len().min(BLOCK_BYTES);
    Ok(Vec::from_slice(alloc, &text[filled..])?)
}

/// Puts the bytes at `start` and returns their end.
pub fn put_bytes(text: &mut [u8], start: usize, bytes: &[u8]) -> usize
    requires { start + length bytes.now ≤ length text.old }
    ensures text { take result text.new ≡ take start text.old ++ bytes.now }
    ensures rest { drop result text.new ≡ drop result text.old }
    ensures ends { result ≡ start + length bytes.now }
    ensures room { length text.new ≡ length text.old }
{
    let end = start + bytes.len();
    text[start..end].copy_from_slice(bytes);
    end
}
