//! The numbers that a generated table is made from.

ghost use Rattle.std.specs.Prelude.{◌≡◌, IfOk};
ghost use Rattle.context_table.specs.Recipes.{KeepsLimits, recipe_table};

use crate::Table;
use fca_model::{MAX_ATTRIBUTES, Memory};
use std::alloc::Global;

/// The most crosses that eight cells of a generated table have on average.
pub const MAX_DENSITY: u8 = 8;

/// The seed of a generated table, its numbers of objects and attributes, and its number of crosses in eight cells.
#[derive(Clone, Copy)]
pub struct Recipe {
    pub seed: u64,
    pub objects: u32,
    pub attributes: u32,
    pub density: u8,
}

impl Recipe {
    /// Makes the table of the recipe.
    pub fn table(&self, alloc: Global) -> Result<Table, Memory>
        requires limits { KeepsLimits MAX_ATTRIBUTES self.now }
        ensures { IfOk result (λ table. table ≡ recipe_table self.now) }
    {
        Table::make(
            alloc,
            self.seed,
            self.objects,
            self.attributes,
            self.density,
        )
    }
}
