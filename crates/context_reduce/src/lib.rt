//! Clarifying and reducing a table, and the arrows between its objects and attributes (Ganter and
//! Wille, "Formal Concept Analysis", 1999).
#![tactic(auto)]

mod arrow;
mod columns;
mod finding;
mod larger;
pub mod laws;
mod parts;
mod rows;
mod texts;

ghost use Rattle.std.specs.Prelude.{◌≡◌, IfOk};
ghost use Rattle.context_reduce.specs.Reduce.{distinct_objects, distinct_attributes, irreducible_objects, irreducible_attributes};
ghost use Rattle.context_reduce.specs.Reduce.{KeepsIntents, AreItsPlaces};

pub use arrow::{Arrow, Arrows};
use columns::{distinct_attributes, irreducible_attributes};
use context_table::Table;
use fca_model::{Memory, Places};
pub use finding::arrows;
pub use parts::part;
use rows::{distinct_objects, irreducible_objects};
use std::alloc::Global;
pub use texts::arrows_text;

/// The places of the objects and attributes of a table that are kept, ascending.
#[derive(Drop)]
pub struct Kept {
    pub objects: Places,
    pub attributes: Places,
}

/// The objects whose row and the attributes whose column no earlier one has.
pub fn clarify(alloc: Global, table: &Table) -> Result<Kept, Memory>
    ensures objects { IfOk result (λ kept. kept.objects ≡ distinct_objects table.now.context) }
    ensures attributes { IfOk result (λ kept. kept.attributes ≡ distinct_attributes table.now.context) }
    ensures places { IfOk result (λ kept. AreItsPlaces table.now kept.objects kept.attributes) }
    ensures intents { IfOk result (λ kept. KeepsIntents table.now.context kept.objects kept.attributes) }
{
    let rows = table.rows();
    Ok(Kept {
        objects: distinct_objects(alloc, rows)?,
        attributes: distinct_attributes(alloc, rows)?,
    })
}

/// The objects of `clarify` whose row is not the intersection of all rows that strictly contain it, and the
/// attributes likewise by their columns. The intersection of none is the full set.
pub fn irreducible(alloc: Global, table: &Table) -> Result<Kept, Memory>
    ensures objects { IfOk result (λ kept. kept.objects ≡ irreducible_objects table.now.context) }
    ensures attributes { IfOk result (λ kept. kept.attributes ≡ irreducible_attributes table.now.context) }
    ensures places { IfOk result (λ kept. AreItsPlaces table.now kept.objects kept.attributes) }
    ensures intents { IfOk result (λ kept. KeepsIntents table.now.context kept.objects kept.attributes) }
{
    let rows = table.rows();
    Ok(Kept {
        objects: irreducible_objects(alloc, rows)?,
        attributes: irreducible_attributes(alloc, rows)?,
    })
}
