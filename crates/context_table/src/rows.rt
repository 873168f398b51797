//! Narrow rows: rows in as few words as have room for them.

ghost use Rattle.std.specs.Prelude.{◌≡◌, IfOk};
ghost use Rattle.context_table.specs.Narrow.{context_in, HasFewestWords};

use attr_bits::{WORDS, WordCount};
use derivation::{Rows, RowsOf};
use fca_model::Memory;
use std::alloc::Global;

/// The rows of a context, in one, two, four, eight or all words each.
#[derive(Drop)]
pub enum NarrowRows {
    One(RowsOf<1>),
    Two(RowsOf<2>),
    Four(RowsOf<4>),
    Eight(RowsOf<8>),
    All(RowsOf<WORDS>),
}

/// Copies the rows into as few words as have room for them.
pub fn narrow_rows(alloc: Global, rows: &Rows) -> Result<NarrowRows, Memory>
    ensures context { IfOk result (λ narrow. context_in narrow ≡ rows.now) }
    ensures fewest { IfOk result (λ narrow. HasFewestWords narrow) }
{
    Ok(match WordCount::of(rows.width()) {
        WordCount::One => NarrowRows::One(rows.resize(alloc)?),
        WordCount::Two => NarrowRows::Two(rows.resize(alloc)?),
        WordCount::Four => NarrowRows::Four(rows.resize(alloc)?),
        WordCount::Eight => NarrowRows::Eight(rows.resize(alloc)?),
        WordCount::All => NarrowRows::All(rows.copy()?),
    })
}
