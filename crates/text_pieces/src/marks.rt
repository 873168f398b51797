//! Sets of attributes as marks, one for each attribute.

ghost use Rattle.std.specs.Prelude.{◌≡◌, ◌≤◌, ◌<◌, ◌+◌, ◌-◌, ◌==◌, ℕ, length, map, slice_index, take, drop};
ghost use Rattle.std.specs.Int.{bit_at};
ghost use Rattle.std.specs.List.{list_all};
ghost use Rattle.fca_model.specs.declared.TheConstants.{MAX_ATTRIBUTES};
ghost use Rattle.text_pieces.specs.Marks as mark;

use attr_bits::Attrs;
use fca_model::MAX_ATTRIBUTES;
use std::simd::prelude::*;

/// The number of marks that are read at once.
const BLOCK: u32 = 64;

/// The marks of a place outside a set and of a place inside.
const MARKS: [u8; 2] = [b'.', b'X'];

fn is_cross(byte: u8) -> bool
    ensures { result ≡ mark.is_cross byte }
{
    byte == b'X' || byte == b'x'
}

/// Whether the byte is `X`, `x` or `.`.
pub fn is_mark(byte: u8) -> bool
    ensures { result ≡ mark.is_mark byte }
{
    is_cross(byte) || byte == b'.'
}

/// Whether each byte is a mark. It reads all bytes, so that many are compared at once.
pub fn are_marks(cells: &[u8]) -> bool
    ensures { result ≡ list_all mark.is_mark cells.now }
{
    let mut all = true;
    for byte in cells {
        all &= is_mark(*byte);
    }
    all
}

/// The set of the places that have a cross.
pub fn set_of_marks(cells: &[u8]) -> Attrs
    requires { length cells.now ≤ MAX_ATTRIBUTES }
    ensures { result ≡ map mark.is_cross cells.now }
{
    let width = cells.len() as u32;
    let mut set = Attrs::empty(width);
    for block in 0..width.div_ceil(BLOCK) {
        let from = BLOCK * block;
        let end = width.min(from + BLOCK);
        set.insert_bits(from, crosses_of(&cells[from as usize..end as usize]));
    }
    set
}

/// The crosses among at most 64 bytes as bits, from the lowest on.
fn crosses_of(cells: &[u8]) -> u64
    requires { length cells.now ≤ 64 }
    ensures { (j : ℕ) → j < length cells.now → (bit_at result j == 1) ≡ mark.is_cross (slice_index cells.now j) }
{
    let lanes = lanes_of(cells);
    places_of(b'X', lanes) | places_of(b'x', lanes)
}

/// The bytes as lanes. Lanes from their end on mean nothing.
fn lanes_of(cells: &[u8]) -> u8x64
    requires { length cells.now ≤ 64 }
    ensures { take (length cells.now) result ≡ cells.now }
{
    let mut bytes = [0; 64];
    bytes[..cells.len()].copy_from_slice(cells);
    u8x64::from_array(bytes)
}

/// The lanes with this byte as bits, from the lowest on.
fn places_of(byte: u8, lanes: u8x64) -> u64
    ensures { (j : ℕ) → j < 64 → (bit_at result j == 1) ≡ (slice_index lanes j == byte) }
{
    lanes.simd_eq(u8x64::splat(byte)).to_bitmask()
}

/// The marks of the places from `from` to `end`. Bytes behind them mean nothing.
pub fn marks_of<const N: usize>(set: &Attrs, from: u32, end: u32) -> [u8; N]
    requires order { from ≤ end }
    requires few { end ≤ from + N }
    requires inside { end ≤ length set.now }
    ensures { take (end - from) result ≡ mark.marks_of (take (end - from) (drop from set.now)) }
{
    let mut marks = [b'.'; N];
    for j in 0..end - from {
        marks[j as usize] = MARKS[usize::from(set.has(from + j))];
    }
    marks
}
