//! The recipe of a generated table, as the words of a command give it.

ghost use Rattle.std.specs.Prelude.{◌≡◌, IfSome};
ghost use Rattle.context_table.specs.Recipes.{KeepsLimits};
ghost use Rattle.fca_command.specs.Recipes.{recipe_of};

use crate::numbers::number_of;
use context_table::{MAX_DENSITY, Recipe};
use fca_model::{MAX_OBJECTS, Word};

/// The recipe that these words give, of a table with at most `most` attributes.
pub(crate) fn recipe_of(
    most: u32,
    seed: &Word,
    objects: &Word,
    attributes: &Word,
    density: &Word,
) -> Option<Recipe>
    ensures recipe { result ≡ recipe_of most seed.now objects.now attributes.now density.now }
    ensures limits { IfSome result (KeepsLimits most) }
{
    Some(Recipe {
        seed: number_of(u64::MAX, seed.bytes())?,
        objects: number_of(MAX_OBJECTS as u64, objects.bytes())? as u32,
        attributes: number_of(u64::from(most), attributes.bytes())? as u32,
        density: number_of(u64::from(MAX_DENSITY), density.bytes())? as u8,
    })
}
