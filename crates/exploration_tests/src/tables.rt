//! The table over the attributes a and b that has no object, which all tests explore, and one with an object.

ghost use Rattle.std.specs.Prelude.{◌≡◌, [], IfOk, length, vec_len};

use attr_bits::Attrs;
use context_table::Table;
use derivation::Rows;
use explore_state::Explore;
use fca_model::{Memory, Name};
use std::alloc::Global;

/// A name that is one.
pub fn named(alloc: Global, text: &str) -> Result<Name, Memory> {
    let Ok(name) = Name::new(alloc, text) else {
        return Err(Memory);
    };
    Ok(name)
}

/// The table of these objects over a and b.
fn table_of(alloc: Global, objects: Vec<Name>, rows: Rows) -> Result<Table, Memory>
    requires even { vec_len objects ≡ length rows.rows }
    requires width { rows.width ≡ 2 }
    ensures { IfOk result (λ table. table.context.width ≡ 2) }
{
    let mut attributes = Vec::new(alloc);
    attributes.push(named(alloc, "a")?)?;
    attributes.push(named(alloc, "b")?)?;
    let Ok(table) = Table::new(alloc, None, objects, attributes, rows) else {
        return Err(Memory);
    };
    Ok(table)
}

/// The table without objects.
pub fn bare_table(alloc: Global) -> Result<Table, Memory>
    ensures { IfOk result (λ table. table.context.width ≡ 2) }
{
    let rows = Rows::new(alloc, 2)?;
    table_of(alloc, Vec::new(alloc), rows)
}

/// The table of one object, g, which has a alone.
pub fn table_of_one(alloc: Global) -> Result<Table, Memory>
    ensures { IfOk result (λ table. table.context.width ≡ 2) }
{
    let mut objects = Vec::new(alloc);
    objects.push(named(alloc, "g")?)?;
    let mut rows = Rows::new(alloc, 2)?;
    rows.push(Attrs::empty(2).with(0))?;
    table_of(alloc, objects, rows)
}

/// The exploration of the table without objects by so many experts, as it begins.
pub fn opened(alloc: Global, experts: u8) -> Result<Explore, Memory>
    ensures journal { IfOk result (λ explore. explore.journal ≡ []) }
    ensures width { IfOk result (λ explore. explore.opening.table.context.width ≡ 2) }
    ensures experts { IfOk result (λ explore. explore.opening.experts ≡ experts) }
{
    let Ok(explore) = Explore::open(alloc, bare_table(alloc)?, experts) else {
        return Err(Memory);
    };
    Ok(explore)
}
