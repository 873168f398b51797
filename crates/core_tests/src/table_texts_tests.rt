//! Tables whose concepts are found by several threads, and whose basis is written.

use basis_report::{basis_text, concepts_text};
use canonical_basis::basis;
use context_table::{NarrowTable, Table};
use fca_model::Memory;
use lectic_concepts::all_concepts;
use std::rt::HostRuntime;
use table_texts::{narrow_basis_text, narrow_concepts_text};

// Thirty attributes, of which two share few of the 150 objects. The text beside both is that of a list of all concepts.
#[test]
fn concepts_are_found_side_by_side(rt: HostRuntime) -> Result<(), Memory> {
    let table = Table::make(rt.alloc(), 1, 150, 30, 3)?;
    let concepts = all_concepts(rt.alloc(), table.rows())?;
    let plain = concepts_text(rt.alloc(), &table, &concepts)?;
    let narrow = NarrowTable::of(rt.alloc(), table)?;
    let text = narrow_concepts_text(&rt, rt.alloc(), narrow)?.into_bytes()?;
    assert!(&rt; text.as_slice() == plain.as_slice());
    Ok(())
}

// The text beside it is that of the basis as a list.
#[test]
fn the_basis_of_a_table_is_written(rt: HostRuntime) -> Result<(), Memory> {
    let table = Table::make(rt.alloc(), 1, 20, 10, 4)?;
    let list = basis(&rt, rt.alloc(), table.rows())?;
    let plain = basis_text(rt.alloc(), &table, &list)?;
    let text = narrow_basis_text(rt.alloc(), NarrowTable::of(rt.alloc(), table)?)?;
    assert!(&rt; text.as_slice() == plain.as_slice());
    Ok(())
}
