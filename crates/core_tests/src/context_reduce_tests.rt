//! The generated table with the rows XX and .X, which has nothing to clarify.

use context_reduce::clarify;
use context_table::Table;
use fca_model::Memory;
use std::rt::HostRuntime;

#[test]
fn rows_and_columns_that_differ_are_kept(rt: HostRuntime) -> Result<(), Memory> {
    let table = Table::make(rt.alloc(), 0, 2, 2, 4)?;
    let kept = clarify(rt.alloc(), &table)?;
    assert!(&rt; kept.objects.as_slice() == [0, 1].as_slice());
    assert!(&rt; kept.attributes.as_slice() == [0, 1].as_slice());
    Ok(())
}
