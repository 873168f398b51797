//! A second copy of the rows of a table, in sets as narrow as the table, with their columns.

ghost use Rattle.std.specs.Prelude.{IfOk};
ghost use Rattle.oracle_expert.specs.Indexed.{AreRowsOf};

use attr_bits::WordCount;
use derivation::Rows;
use extent_blocks::IndexedRows;
use fca_model::Memory;
use std::alloc::Global;

/// The rows and columns of a table in the fewest words that have room for its attributes.
#[derive(Drop)]
pub(crate) enum IndexedCopy {
    One(IndexedRows<1>),
    Two(IndexedRows<2>),
    Four(IndexedRows<4>),
    Eight(IndexedRows<8>),
    /// The attributes need more words. No copy is kept.
    NoCopy,
}

/// A copy of the rows in the fewest words that have room for them.
pub(crate) fn indexed_copy(alloc: Global, rows: &Rows) -> Result<IndexedCopy, Memory>
    ensures { IfOk result (AreRowsOf rows.now) }
{
    Ok(match WordCount::of(rows.width()) {
        WordCount::One => IndexedCopy::One(IndexedRows::new(alloc, rows.resize(alloc)?)?),
        WordCount::Two => IndexedCopy::Two(IndexedRows::new(alloc, rows.resize(alloc)?)?),
        WordCount::Four => IndexedCopy::Four(IndexedRows::new(alloc, rows.resize(alloc)?)?),
        WordCount::Eight => IndexedCopy::Eight(IndexedRows::new(alloc, rows.resize(alloc)?)?),
        WordCount::All => IndexedCopy::NoCopy,
    })
}
