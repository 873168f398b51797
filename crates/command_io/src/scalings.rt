//! Reads a file as a table of values, and another as a plan for it.

ghost use Rattle.std.specs.Prelude.{◌≡◌, ◌≤◌, ℕ, List, IfOk, IfErr, Some, length};
ghost use Rattle.fca_model.specs.declared.TheConstants.{FILE_BYTES};
ghost use Rattle.std.specs.Option.{option_map};
ghost use Rattle.fca_io.specs.Faults.{Rose, one_more};
ghost use Rattle.value_tables.specs.Form.{values_form};
ghost use Rattle.context_scaling.specs.PlanForm.{plan_form};
ghost use Rattle.context_scaling.specs.Scaling.{Fits};
ghost use Rattle.command_io.specs.Readings.{formed, MayRead, MayRefuse, SameCounts};
ghost use Rattle.command_io.specs.Forms.{values_read, plan_read};
ghost use Rattle.command_io.specs.Causes.{UnlessReadFault, IsValuesStop, IsPlanStop};
ghost use Rattle.command_io.specs.Endings.{IsRefusal};

use crate::fetch::fetch_file;
use crate::stop::{Origin, Stop};
use context_scaling::{Plan, PlanFault, read_plan};
use fca_io::Shelf;
use fca_model::Word;
use std::alloc::Global;
use value_tables::{Values, ValuesFault, read_values};

/// Reads the table of values in the file. A stop names the origin.
pub fn load_values<H: Shelf>(
    alloc: Global,
    shelf: &mut H,
    file: &Word,
    origin: Origin,
) -> Result<Values, Stop>
    ensures values { IfOk result (λ values. MayRead (values_read (H.tells shelf.old file.now)) values) }
    ensures refused { IfErr result (λ stop. IsRefusal stop → MayRefuse (values_read (H.tells shelf.old file.now))) }
    ensures cause { IfErr result (IsValuesStop (H.tells shelf.old file.now)
        (Rose (H.faults shelf.old file.now) (H.faults shelf.new file.now)) origin) }
    ensures quiet { UnlessReadFault result (SameCounts (H.faults shelf.old) (H.faults shelf.new)) }
    ensures counted { H.fetches shelf.new ≡ option_map one_more (H.fetches shelf.old) }
    ensures kept { (other : List ℕ) → H.tells shelf.new other ≡ H.tells shelf.old other }
    ensures only_rise { (other : List ℕ) → H.faults shelf.old other ≤ H.faults shelf.new other }
{
    let bytes = fetch_file(alloc, shelf, file, origin)?;
    values_of(alloc, &bytes, origin)
}

/// Reads the table of values in the bytes.
fn values_of(alloc: Global, bytes: &[u8], origin: Origin) -> Result<Values, Stop>
    requires { length bytes.now ≤ FILE_BYTES }
    ensures values { IfOk result (λ values. MayRead (formed (values_form bytes.now)) values) }
    ensures refused { IfErr result (λ stop. IsRefusal stop → MayRefuse (formed (values_form bytes.now))) }
    ensures cause { IfErr result (IsValuesStop (Some (Some bytes.now)) ⊥ origin) }
{
    match read_values(alloc, bytes) {
        Ok(values) => Ok(values),
        Err(ValuesFault::Memory) => Err(Stop::Memory),
        Err(fault) => Err(Stop::BadValues(origin, fault)),
    }
}

/// Reads the plan for the values in the file. A stop names the origin.
pub fn load_plan<H: Shelf>(
    alloc: Global,
    shelf: &mut H,
    file: &Word,
    origin: Origin,
    values: &Values,
) -> Result<Plan, Stop>
    ensures plan { IfOk result (λ plan. MayRead (plan_read values.now (H.tells shelf.old file.now)) plan) }
    ensures fits { IfOk result (λ plan. Fits plan values.now) }
    ensures refused { IfErr result (λ stop. IsRefusal stop → MayRefuse (plan_read values.now (H.tells shelf.old file.now))) }
    ensures cause { IfErr result (IsPlanStop values.now (H.tells shelf.old file.now)
        (Rose (H.faults shelf.old file.now) (H.faults shelf.new file.now)) origin) }
    ensures quiet { UnlessReadFault result (SameCounts (H.faults shelf.old) (H.faults shelf.new)) }
    ensures counted { H.fetches shelf.new ≡ option_map one_more (H.fetches shelf.old) }
    ensures kept { (other : List ℕ) → H.tells shelf.new other ≡ H.tells shelf.old other }
    ensures only_rise { (other : List ℕ) → H.faults shelf.old other ≤ H.faults shelf.new other }
{
    let bytes = fetch_file(alloc, shelf, file, origin)?;
    plan_of(alloc, &bytes, origin, values)
}

/// Reads the plan for the values in the bytes.
fn plan_of(alloc: Global, bytes: &[u8], origin: Origin, values: &Values) -> Result<Plan, Stop>
    requires { length bytes.now ≤ FILE_BYTES }
    ensures plan { IfOk result (λ plan. MayRead (formed (plan_form values.now bytes.now)) plan) }
    ensures fits { IfOk result (λ plan. Fits plan values.now) }
    ensures refused { IfErr result (λ stop. IsRefusal stop → MayRefuse (formed (plan_form values.now bytes.now))) }
    ensures cause { IfErr result (IsPlanStop values.now (Some (Some bytes.now)) ⊥ origin) }
{
    match read_plan(alloc, bytes, values) {
        Ok(plan) => Ok(plan),
        Err(PlanFault::Memory) => Err(Stop::Memory),
        Err(fault) => Err(Stop::BadPlan(origin, fault)),
    }
}
