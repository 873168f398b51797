//! Tables that are made from a number: one as a file, and a survey of one.

ghost use Rattle.std.specs.Prelude.{◌≡◌, IfOk, IfErr, true};
ghost use Rattle.fca_model.specs.Exploration.{is_expert};
ghost use Rattle.fca_model.specs.declared.TheConstants.{MAX_ATTRIBUTES, MAX_SURVEYED};
ghost use Rattle.context_table.specs.Recipes.{KeepsLimits};
ghost use Rattle.fca_run.specs.Outputs.{make_output, survey_output};

use command_io::{Output, Stop};
use context_table::Recipe;
use cxt_format::write_cxt;
use explore_command::survey;
use fca_model::Memory;
use std::alloc::Global;
use std::sync::Wait;
use std::thread::Threads;

/// The table of the recipe, in the Burmeister form.
pub fn make_output(alloc: Global, recipe: &Recipe) -> Result<Output, Memory>
    requires { KeepsLimits MAX_ATTRIBUTES recipe.now }
    ensures { IfOk result (λ output. output ≡ make_output recipe.now) }
{
    let table = recipe.table(alloc)?;
    Ok(Output::of_text(write_cxt(alloc, &table)?))
}

/// What is counted of the table and of the exploration by its oracles.
pub fn survey_output<R: Threads + Wait + Sync>(
    rt: &R,
    alloc: Global,
    recipe: &Recipe,
    experts: u8,
) -> Result<Output, Stop>
    requires recipe { KeepsLimits MAX_SURVEYED recipe.now }
    requires experts { is_expert experts ≡ true }
    ensures output { IfOk result (λ output. output ≡ survey_output recipe.now) }
    ensures cause { IfErr result (λ stop. stop ≡ Stop.Memory) }
{
    Ok(Output::of_text(survey(rt, alloc, recipe, experts)?))
}
