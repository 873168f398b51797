//! Rows that are copied.

use crate::tables::nominal_rows;
use fca_model::Memory;
use std::rt::HostRuntime;

#[test]
fn rows_are_copied(rt: HostRuntime) -> Result<(), Memory> {
    let rows = nominal_rows(rt.alloc())?;
    let copy = rows.copy()?;
    assert!(&rt; copy.as_slice() == rows.as_slice());
    Ok(())
}
