//! Rows with their columns: for each attribute the places of the rows that have it, in blocks.

ghost use Rattle.std.specs.Prelude.{◌≡◌, ◌≤◌, ◌<◌, ◌*◌, ℕ, All, IfOk, length, map, false};
ghost use Rattle.std.specs.Int.{div_ceil};
ghost use Rattle.extent_blocks.specs.Blocks.{IsColumn, AreColumns, in_column, contains_at};

use attr_bits::Bits;
use derivation::RowsOf;
use fca_model::Memory;
use std::alloc::Global;
use std::marker::Model;

/// How many places a block has: as many as four words hold.
pub(crate) const BLOCK: usize = 256;

/// Some places of a block.
pub(crate) type BlockSet = Bits<4>;

/// The rows of a context, with the column of each attribute.
#[derive(Drop)]
pub struct IndexedRows<const W: usize> {
    rows: RowsOf<W>,
    columns: Vec<Vec<BlockSet>>,
    supports: Vec<u32>,
}

impl<const W: usize> Model for IndexedRows<W> {
    ghost use Rattle.std.specs.Prelude.{◌≡◌, map, length};
    ghost use Rattle.fca_model.specs.Context.{Context};
    ghost use Rattle.extent_blocks.specs.Blocks.{AreColumns};

    ghost Value = { Context };

    ghost view = { λ s. s.rows };

    ghost invariant = { λ s. record {
      room : length s.columns.items ≡ s.rows.width;
      columns : AreColumns s.rows (map (λ v. v.items) s.columns.items);
    } };
}

impl<const W: usize> IndexedRows<W> {
    /// These rows with their columns.
    pub fn new(alloc: Global, rows: RowsOf<W>) -> Result<IndexedRows<W>, Memory>
        ensures { IfOk result (λ indexed. indexed ≡ rows.entry) }
    {
        let columns = columns_of(alloc, &rows)?;
        let supports = supports_of(alloc, &columns)?;
        Ok(IndexedRows {
            rows,
            columns,
            supports,
        })
    }

    /// The rows.
    pub fn rows(&self) -> &RowsOf<W>
        ensures { result.now ≡ self.now }
    {
        &self.rows
    }

    /// How many rows have each attribute. The counts only guide a walk, and what it finds is the same with others, so no contract speaks of them.
    pub fn supports(&self) -> &[u32] {
        &self.supports
    }

    /// The column of attribute i.
    pub(crate) fn column(&self, i: u32) -> &[BlockSet]
        requires { i < self.now.width }
        ensures { IsColumn self.now i result.now }
    {
        &self.columns[i as usize]
    }
}

/// The column of each attribute.
fn columns_of<const W: usize>(alloc: Global, rows: &RowsOf<W>) -> Result<Vec<Vec<BlockSet>>, Memory>
    ensures room { IfOk result (λ columns. length columns.items ≡ rows.now.width) }
    ensures columns { IfOk result (λ columns. AreColumns rows.now (map (λ v. v.items) columns.items)) }
{
    let mut columns = Vec::new(alloc);
    for i in 0..rows.width() {
        columns.push(column_of(alloc, rows, i)?)?;
    }
    Ok(columns)
}

/// The places of the rows that have attribute i, block by block.
fn column_of<const W: usize>(
    alloc: Global,
    rows: &RowsOf<W>,
    i: u32,
) -> Result<Vec<BlockSet>, Memory>
    requires { i < rows.now.width }
    ensures { IfOk result (λ column. IsColumn rows.now i column.items) }
{
    let _width = rows.width();
    let mut column = empty_blocks(alloc, rows.len().div_ceil(BLOCK))?;
    for (place, row) in rows.as_slice().iter().enumerate() {
        if row.has(i) {
            column[place / BLOCK].insert((place % BLOCK) as u32);
        }
    }
    Ok(column)
}

/// The number of places in each column.
fn supports_of(alloc: Global, columns: &[Vec<BlockSet>]) -> Result<Vec<u32>, Memory> {
    let mut supports = Vec::with_capacity(alloc, columns.len())?;
    for column in columns {
        supports.push(count_places(column))?;
    }
    Ok(supports)
}

/// The number of places in the blocks.
fn count_places(column: &[BlockSet]) -> u32 {
    let mut count = 0u32;
    for objects in column {
        count = count.saturating_add(objects.size());
    }
    count
}

/// The places of the rows that contain a, block by block.
pub(crate) fn places_above<const W: usize>(
    alloc: Global,
    rows: &RowsOf<W>,
    a: &Bits<W>,
) -> Result<Vec<BlockSet>, Memory>
    ensures count { IfOk result (λ column. length column.items ≡ div_ceil (length rows.now.rows) 256) }
    ensures places { IfOk result (λ column. (g : ℕ) → in_column column.items g ≡ contains_at rows.now a.now g) }
{
    let mut column = empty_blocks(alloc, rows.len().div_ceil(BLOCK))?;
    for (place, row) in rows.as_slice().iter().enumerate() {
        if a.within(row) {
            column[place / BLOCK].insert((place % BLOCK) as u32);
        }
    }
    Ok(column)
}

/// So many blocks, each without places.
fn empty_blocks(alloc: Global, count: usize) -> Result<Vec<BlockSet>, Memory>
    ensures room { IfOk result (λ blocks. length blocks.items ≡ count) }
    ensures wide { IfOk result (λ blocks. All (λ B. length B ≡ 256) blocks.items) }
    ensures empty { IfOk result (λ blocks. (g : ℕ) → in_column blocks.items g ≡ false) }
{
    let mut blocks = Vec::with_capacity(alloc, count)?;
    for _ in 0..count {
        blocks.push(Bits::empty(BLOCK as u32))?;
    }
    Ok(blocks)
}
