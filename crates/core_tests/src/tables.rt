//! The nominal scale of three: object i has attribute i alone.

ghost use Rattle.std.specs.Prelude.{◌≡◌, IfOk};

use attr_bits::Attrs;
use context_table::Table;
use cxt_format::read_cxt;
use derivation::Rows;
use fca_model::Memory;
use std::alloc::Global;

/// Its rows.
pub fn nominal_rows(alloc: Global) -> Result<Rows, Memory>
    ensures { IfOk result (λ rows. rows.width ≡ 3) }
{
    let mut rows = Rows::new(alloc, 3)?;
    rows.push(Attrs::empty(3).with(0))?;
    rows.push(Attrs::empty(3).with(1))?;
    rows.push(Attrs::empty(3).with(2))?;
    Ok(rows)
}

/// Its table, with objects 1 to 3 and attributes a to c.
pub fn nominal_table(alloc: Global) -> Result<Table, Memory> {
    match read_cxt(alloc, b"B\n\n3\n3\n\n1\n2\n3\na\nb\nc\nX..\n.X.\n..X\n") {
        Ok(table) => Ok(table),
        Err(_) => Err(Memory),
    }
}
