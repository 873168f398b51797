//! The command `scale`: the table that a plan makes of a table of values.

ghost use Rattle.std.specs.Prelude.{◌≡◌, IfOk, IfErr};
ghost use Rattle.fca_io.specs.Faults.{RoseAtMost};
ghost use Rattle.context_scaling.specs.Scaling.{Fits, scaled};
ghost use Rattle.cxt_format.specs.Written.{cxt_text};
ghost use Rattle.command_io.specs.Readings.{MayRead, MayRefuse, Rises, SameCounts};
ghost use Rattle.command_io.specs.Causes.{UnlessReadFault};
ghost use Rattle.command_io.specs.Endings.{IsRefusal};
ghost use Rattle.fca_run.specs.Outputs.{scale_output};
ghost use Rattle.fca_run.specs.Causes.{IsScaleStop};

use command_io::{Ending, Origin, Output, Stop, load_plan, load_values};
use context_scaling::{Plan, scale};
use cxt_format::write_cxt;
use fca_io::Shelf;
use fca_model::{Memory, Word};
use std::alloc::Global;
use value_tables::Values;

/// Reads the values and then the plan, and writes the table that the plan makes of the values, in the Burmeister form.
pub fn scale_output<H: Shelf>(
    alloc: Global,
    shelf: &mut H,
    values: &Word,
    plan: &Word,
) -> Result<Output, Stop>
    ensures output { IfOk result (λ output. MayRead (scale_output values.now plan.now (H.tells shelf.old)) output) }
    ensures finished { IfOk result (λ output. output.ending ≡ Ending.Finished) }
    ensures refused { IfErr result (λ stop. IsRefusal stop → MayRefuse (scale_output values.now plan.now (H.tells shelf.old))) }
    ensures cause { IfErr result (IsScaleStop values.now plan.now (H.tells shelf.old) (Rises (H.faults shelf.old) (H.faults shelf.new))) }
    ensures quiet { UnlessReadFault result (SameCounts (H.faults shelf.old) (H.faults shelf.new)) }
    ensures few { RoseAtMost (H.fetches shelf.old) (H.fetches shelf.new) 2 }
{
    let values = load_values(alloc, shelf, values, Origin::File)?;
    let plan = load_plan(alloc, shelf, plan, Origin::Later(0), &values)?;
    Ok(Output::of_text(scaling_text(alloc, &values, &plan)?))
}

/// The table that the plan makes of the values, in the Burmeister form.
fn scaling_text(alloc: Global, values: &Values, plan: &Plan) -> Result<Vec<u8>, Memory>
    requires { Fits plan.now values.now }
    ensures { IfOk result (λ text. text.items ≡ cxt_text (scaled values.now plan.now)) }
{
    let table = scale(alloc, values, plan)?;
    write_cxt(alloc, &table)
}
