//! Rows that are kept.

ghost use Rattle.std.specs.Prelude.{◌≡◌, ◌<◌, IfOk, All, not, length, filter};
ghost use Rattle.context_reduce.specs.Blocks.{AreBlocks};
ghost use Rattle.context_reduce.specs.Reduce.{row_at, reducible, distinct_objects, irreducible_objects};

use crate::larger::{ColumnBlock, blocks_of, meet_of_strictly_larger};
use attr_bits::WordCount;
use derivation::{Rows, RowsOf};
use fca_model::{Memory, Places};
use std::alloc::Global;
use std::collections::BTreeSet;

/// The places of the rows that differ from each earlier one.
pub(crate) fn distinct_objects(alloc: Global, rows: &Rows) -> Result<Places, Memory>
    ensures { IfOk result (λ places. places ≡ distinct_objects rows.now) }
{
    let mut seen = BTreeSet::new(alloc);
    let mut places = Places::new(alloc);
    for g in 0..rows.len() {
        let row = rows.get(g);
        if seen.insert(row)? {
            places.push(g)?;
        }
    }
    Ok(places)
}

/// The places of the rows that differ from each earlier one and are not reducible.
pub(crate) fn irreducible_objects(alloc: Global, rows: &Rows) -> Result<Places, Memory>
    ensures { IfOk result (λ places. places ≡ irreducible_objects rows.now) }
{
    let places = distinct_objects(alloc, rows)?;
    irreducible_rows(alloc, rows, &places)
}

/// Those of the places whose row is not reducible. They are found in sets of as few words as have room for a row.
fn irreducible_rows(alloc: Global, rows: &Rows, places: &Places) -> Result<Places, Memory>
    requires { All (λ g. g < length rows.now.rows) places.now }
    ensures { IfOk result (λ kept. kept ≡ filter (λ g. not (reducible rows.now (row_at rows.now g))) places.now) }
{
    match WordCount::of(rows.width()) {
        WordCount::One => irreducible_rows_in(alloc, &rows.resize::<1>(alloc)?, places),
        WordCount::Two => irreducible_rows_in(alloc, &rows.resize::<2>(alloc)?, places),
        WordCount::Four => irreducible_rows_in(alloc, &rows.resize::<4>(alloc)?, places),
        WordCount::Eight => irreducible_rows_in(alloc, &rows.resize::<8>(alloc)?, places),
        WordCount::All => irreducible_rows_in(alloc, rows, places),
    }
}

/// Those of the places whose row is not reducible, by sets of the words that the rows have.
fn irreducible_rows_in<const W: usize>(
    alloc: Global,
    rows: &RowsOf<W>,
    places: &Places,
) -> Result<Places, Memory>
    requires { All (λ g. g < length rows.now.rows) places.now }
    ensures { IfOk result (λ kept. kept ≡ filter (λ g. not (reducible rows.now (row_at rows.now g))) places.now) }
{
    let blocks = blocks_of(alloc, rows)?;
    let mut kept = Places::new(alloc);
    for g in places.as_slice() {
        if !is_reducible(rows, &blocks, *g) {
            kept.push(*g)?;
        }
    }
    Ok(kept)
}

/// Whether row g is the intersection of the larger ones.
fn is_reducible<const W: usize>(rows: &RowsOf<W>, blocks: &[ColumnBlock], g: usize) -> bool
    requires place { g < length rows.now.rows }
    requires blocks { AreBlocks rows.now blocks.now }
    ensures { result ≡ reducible rows.now (row_at rows.now g) }
{
    let _width = rows.width();
    let row = rows.get(g);
    row == meet_of_strictly_larger(rows, blocks, &row)
}
