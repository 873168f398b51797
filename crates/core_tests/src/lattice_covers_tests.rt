//! A small lattice that is known.

use attr_bits::Attrs;
use derivation::Rows;
use fca_model::Memory;
use lattice_covers::covers;
use lectic_concepts::all_intents;
use std::rt::HostRuntime;

#[test]
fn a_row_of_one_attribute_has_two_concepts(rt: HostRuntime) -> Result<(), Memory> {
    let mut rows = Rows::new(rt.alloc(), 2)?;
    rows.push(Attrs::empty(2).with(1))?;
    let intents = all_intents(rt.alloc(), &rows)?;
    let pairs = covers(rt.alloc(), &rows, &intents)?;
    assert!(&rt; pairs.as_slice() == [(0, 1)].as_slice());
    Ok(())
}
