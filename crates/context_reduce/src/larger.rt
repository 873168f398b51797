//! The intersection of the rows that strictly contain a set.
//!
//! The rows stand in blocks, and each block has its columns: which of its rows have each attribute. For most blocks the
//! intersection of a few columns shows that no row contains the set. Only the rows of the others are looked at.

ghost use Rattle.std.specs.Prelude.{◌≡◌, ◌≤◌, ◌<◌, ◌*◌, IfOk, All, length, map, fold, filter, slice_index_or, false};
ghost use Rattle.std.specs.List.{list_any};
ghost use Rattle.fca_model.specs.Sets.{meet, within, strictly_within};
ghost use Rattle.fca_model.specs.Context.{Context};
ghost use Rattle.context_reduce.specs.Blocks.{row_block, AreBlocks};
ghost use Rattle.context_reduce.specs.Reduce.{transpose, column, meet_of_strictly_larger};

use attr_bits::Bits;
use derivation::RowsOf;
use fca_model::Memory;
use std::alloc::Global;

/// The number of rows of a block: as many as four words hold.
const BLOCK_ROWS: usize = 256;

/// The columns of a block, each a set of its rows.
pub(crate) type ColumnBlock = RowsOf<4>;

/// The columns of each block.
pub(crate) fn blocks_of<const W: usize>(
    alloc: Global,
    rows: &RowsOf<W>,
) -> Result<Vec<ColumnBlock>, Memory>
    ensures { IfOk result (λ blocks. AreBlocks rows.now blocks.items) }
{
    let mut blocks = Vec::new(alloc);
    for k in 0..rows.len().div_ceil(BLOCK_ROWS) {
        blocks.push(columns_of(alloc, rows, k)?)?;
    }
    Ok(blocks)
}

/// The columns of block k.
fn columns_of<const W: usize>(
    alloc: Global,
    rows: &RowsOf<W>,
    k: usize,
) -> Result<ColumnBlock, Memory>
    requires { k * BLOCK_ROWS ≤ length rows.now.rows }
    ensures { IfOk result (λ columns. columns ≡ transpose (row_block rows.now k)) }
{
    let width = rows.width();
    let part = row_block(rows, k);
    let mut columns = ColumnBlock::new(alloc, part.len() as u32)?;
    for m in 0..width {
        columns.push(column_of(part, m))?;
    }
    Ok(columns)
}

/// Which of the rows have attribute m.
fn column_of<const W: usize>(rows: &[Bits<W>], m: u32) -> Bits<4>
    requires few { length rows.now ≤ BLOCK_ROWS }
    requires place { All (λ row. m < length row) rows.now }
    ensures { result ≡ map (λ row. slice_index_or row m false) rows.now }
{
    let mut column = Bits::empty(rows.len() as u32);
    for (i, row) in rows.iter().enumerate() {
        if row.has(m) {
            column.insert(i as u32);
        }
    }
    column
}

/// The rows of block k.
fn row_block<const W: usize>(rows: &RowsOf<W>, k: usize) -> &[Bits<W>]
    requires { k * BLOCK_ROWS ≤ length rows.now.rows }
    ensures rows { result.now ≡ (row_block rows.now k).rows }
    ensures few { length result.now ≤ BLOCK_ROWS }
    ensures even { All (λ row. length row ≡ rows.now.width) result.now }
{
    let rest = &rows.as_slice()[k * BLOCK_ROWS..];
    &rest[..BLOCK_ROWS.min(rest.len())]
}

/// The intersection of the rows that strictly contain the set. After it has become the set, the blocks that are left change nothing.
pub(crate) fn meet_of_strictly_larger<const W: usize>(
    rows: &RowsOf<W>,
    blocks: &[ColumnBlock],
    set: &Bits<W>,
) -> Bits<W>
    requires wide { length set.now ≡ rows.now.width }
    requires blocks { AreBlocks rows.now blocks.now }
    ensures { result ≡ meet_of_strictly_larger rows.now set.now }
{
    let mut met = Bits::full(rows.width());
    for k in 0..blocks.len() {
        if may_contain(&blocks[k], set) {
            met = meet_with_larger(set, row_block(rows, k), &met);
            if met.within(set) {
                return met;
            }
        }
    }
    met
}

/// Whether a row of these columns may contain the set. If the answer is no, none does.
fn may_contain<const W: usize>(columns: &ColumnBlock, set: &Bits<W>) -> bool
    requires { length set.now ≤ length columns.now.rows }
    ensures { (B : Context) → columns.now ≡ transpose B → result ≡ false → list_any (within set.now) B.rows ≡ false }
{
    let _width = set.width();
    let count = columns.width();
    let none = Bits::empty(count);
    let mut left = Bits::full(count);
    let mut from = 0;
    while let Some(m) = set.next_member(from) {
        left = left.meet(&columns.get(m as usize));
        if left.within(&none) {
            return false;
        }
        from = m + 1;
    }
    true
}

/// The intersection of start and those of the rows that strictly contain the set.
fn meet_with_larger<const W: usize>(set: &Bits<W>, rows: &[Bits<W>], start: &Bits<W>) -> Bits<W>
    ensures { result ≡ fold meet start.now (filter (strictly_within set.now) rows.now) }
{
    let mut met = *start;
    for row in rows {
        if is_strictly_within(set, row) {
            met = met.meet(row);
        }
    }
    met
}

/// Whether the row contains the set and is another one.
fn is_strictly_within<const W: usize>(set: &Bits<W>, row: &Bits<W>) -> bool
    ensures { result ≡ strictly_within set.now row.now }
{
    set.within(row) && set != row
}
