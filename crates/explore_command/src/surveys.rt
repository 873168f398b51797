//! The command `survey`: it makes a table, and counts its concepts, its basis, and what oracles of it accept.

ghost use Rattle.std.specs.Prelude.{◌≡◌, ◌≤◌, true, [], All, IfOk, length, replicate, vec_len};
ghost use Rattle.fca_model.specs.Exploration.{is_expert, plain};
ghost use Rattle.fca_model.specs.Pseudo.{intents, basis};
ghost use Rattle.fca_model.specs.declared.TheConstants.{MAX_SURVEYED};
ghost use Rattle.context_table.specs.Recipes.{KeepsLimits, recipe_table};
ghost use Rattle.explore_command.specs.Surveyed.{surveyed_text};

use basis_report::survey_text;
use canonical_basis::basis;
use context_table::{Recipe, Table};
use expert_panel::explore_with_oracles;
use explore_state::Explore;
use fca_model::{MAX_TURNS, Memory};
use lectic_concepts::all_intents;
use std::alloc::Global;
use std::sync::Wait;
use std::thread::Threads;

/// Makes the table of the recipe. Counts its concepts, the implications of its basis, and the implications that oracles of it accept when
/// they explore its attributes.
pub fn survey<R: Threads + Wait + Sync>(
    rt: &R,
    alloc: Global,
    recipe: &Recipe,
    experts: u8,
) -> Result<Vec<u8>, Memory>
    requires recipe { KeepsLimits MAX_SURVEYED recipe.now }
    requires experts { is_expert experts ≡ true }
    ensures { IfOk result (λ text. text.items ≡ surveyed_text (recipe_table recipe.now)) }
{
    let table = recipe.table(alloc)?;
    survey_of(rt, alloc, recipe, &table, experts)
}

/// The text of what is counted of the recipe's table.
fn survey_of<R: Threads + Wait + Sync>(
    rt: &R,
    alloc: Global,
    recipe: &Recipe,
    table: &Table,
    experts: u8,
) -> Result<Vec<u8>, Memory>
    requires recipe { KeepsLimits MAX_SURVEYED recipe.now }
    requires experts { is_expert experts ≡ true }
    requires table { table.now ≡ recipe_table recipe.now }
    ensures { IfOk result (λ text. text.items ≡ surveyed_text table.now) }
{
    let concepts = concept_count(alloc, table)?;
    let members = member_count(rt, alloc, table)?;
    let accepted = accepted_count(rt, alloc, recipe, table, experts)?;
    survey_text(alloc, table, concepts, members, accepted)
}

/// The number of concepts of the table.
fn concept_count(alloc: Global, table: &Table) -> Result<usize, Memory>
    ensures { IfOk result (λ count. count ≡ length (intents table.now.context)) }
{
    let intents = all_intents(alloc, table.rows())?;
    Ok(intents.len())
}

/// The number of implications in the basis of the table.
fn member_count<R: Threads + Sync>(rt: &R, alloc: Global, table: &Table) -> Result<usize, Memory>
    ensures { IfOk result (λ count. count ≡ length (basis table.now.context)) }
{
    let list = basis(rt, alloc, table.rows())?;
    Ok(list.as_slice().len())
}

/// The number of implications that oracles of the table accept when they explore its attributes, beginning with no object.
fn accepted_count<R: Threads + Wait + Sync>(
    rt: &R,
    alloc: Global,
    recipe: &Recipe,
    table: &Table,
    experts: u8,
) -> Result<usize, Memory>
    requires recipe { KeepsLimits MAX_SURVEYED recipe.now }
    requires experts { is_expert experts ≡ true }
    requires table { table.now ≡ recipe_table recipe.now }
    ensures { IfOk result (λ count. count ≡ length (basis table.now.context)) }
{
    let tables = copies(alloc, table, experts)?;
    let explore = open_bare(alloc, recipe, experts)?;
    let explored = explore_with_oracles(rt, alloc, explore, tables, MAX_TURNS)?;
    let accepted = explored.explore.accepted().len();
    drop(explored);
    Ok(accepted)
}

/// Opens an exploration of the recipe's attributes without objects.
fn open_bare(alloc: Global, recipe: &Recipe, experts: u8) -> Result<Explore, Memory>
    requires { KeepsLimits MAX_SURVEYED recipe.now }
    ensures opening { IfOk result (λ explore. explore.opening ≡ record {
      table = recipe_table (record { seed = recipe.now.seed; objects = 0; attributes = recipe.now.attributes; density = recipe.now.density });
      experts = experts;
      settings = plain;
    }) }
    ensures journal { IfOk result (λ explore. explore.journal ≡ []) }
{
    let bare = Recipe {
        objects: 0,
        ..*recipe
    };
    let bare = bare.table(alloc)?;
    match Explore::open(alloc, bare, experts) {
        Ok(explore) => Ok(explore),
        Err(_) => Err(Memory),
    }
}

/// Copies the table `count` times.
fn copies(alloc: Global, table: &Table, count: u8) -> Result<Vec<Table>, Memory>
    ensures count { IfOk result (λ tables. vec_len tables ≡ count) }
    ensures same { IfOk result (λ tables. All (λ copy. copy ≡ table.now) tables.items) }
{
    let mut tables = Vec::with_capacity(alloc, count as usize)?;
    for _ in 0..count {
        let copy = table.copy()?;
        tables.push(copy)?;
    }
    Ok(tables)
}
