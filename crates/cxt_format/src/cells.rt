//! The cells of a row, read many at a time.

ghost use Rattle.std.specs.Prelude.{◌≡◌, ◌≤◌, ◌<◌, ◌*◌, cond, Some, None, length, map};
ghost use Rattle.std.specs.List.{list_all};
ghost use Rattle.text_pieces.specs.Marks.{is_cross, is_mark};
ghost use Rattle.cxt_format.specs.Cells.{crosses_if_marks};

use attr_bits::Bits;
use fca_model::MAX_ATTRIBUTES;
use std::simd::prelude::*;

/// The number of cells that are read into one word.
const BLOCK: u32 = 64;

/// The set of the places that have a cross, if each cell is a mark.
pub fn set_if_marks<const W: usize>(cells: &[u8]) -> Option<Bits<W>>
    requires few { length cells.now ≤ MAX_ATTRIBUTES }
    requires room { length cells.now ≤ 64 * W }
    ensures { result ≡ cond (list_all is_mark cells.now) (Some (map is_cross cells.now)) None }
{
    let width = cells.len() as u32;
    let mut set = Bits::empty(width);
    for block in 0..width.div_ceil(BLOCK) {
        let from = BLOCK * block;
        let end = width.min(from + BLOCK);
        set.insert_bits(from, crosses_if_marks(&cells[from as usize..end as usize])?);
    }
    Some(set)
}

/// The crosses among at most 64 cells as bits, from the lowest on, if each cell is a mark.
fn crosses_if_marks(cells: &[u8]) -> Option<u64>
    requires some { 0 < length cells.now }
    requires few { length cells.now ≤ 64 }
    ensures { result ≡ crosses_if_marks cells.now }
{
    let count = cells.len();
    if count >= 32 {
        crosses_by_ends::<32>(cells)
    } else if count >= 16 {
        crosses_by_ends::<16>(cells)
    } else if count >= 8 {
        crosses_by_ends::<8>(cells)
    } else if count >= 4 {
        crosses_by_ends::<4>(cells)
    } else if count >= 2 {
        crosses_by_ends::<2>(cells)
    } else {
        crosses_by_ends::<1>(cells)
    }
}

/// The crosses among N to 2 * N cells as bits, if each is a mark, by the first N cells and the last N, which may have cells in common.
fn crosses_by_ends<const N: usize>(cells: &[u8]) -> Option<u64>
    requires few { N ≤ 32 }
    requires within { N ≤ length cells.now }
    requires reached { length cells.now ≤ 2 * N }
    ensures { result ≡ crosses_if_marks cells.now }
{
    let behind = cells.len() - N;
    let first = crosses_in_lanes::<N>(Simd::from_slice(cells))?;
    let last = crosses_in_lanes::<N>(Simd::from_slice(&cells[behind..]))?;
    Some(first | last << behind)
}

/// The crosses among N cells as bits, if each is a mark.
fn crosses_in_lanes<const N: usize>(lanes: Simd<u8, N>) -> Option<u64>
    requires { N ≤ 64 }
    ensures { result ≡ crosses_if_marks lanes.entry }
{
    let crosses = lanes.simd_eq(Simd::splat(b'X')) | lanes.simd_eq(Simd::splat(b'x'));
    let marks = crosses | lanes.simd_eq(Simd::splat(b'.'));
    if marks.all() {
        Some(crosses.to_bitmask())
    } else {
        None
    }
}
