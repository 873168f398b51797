//! Laws of the definitions, each the contract of a function that does nothing.

ghost use Rattle.std.specs.Prelude.{◌≡◌, ◌≢◌, ◌↔◌, ◌<◌, ℕ, List, Result, Ok, Err, IsUtf8, length};
ghost use Rattle.std.specs.Str.Lossy.{utf8_valid_len};
ghost use Rattle.text_pieces.specs.Lists.{EachName};
ghost use Rattle.csv_context.specs.Records.{csv_records};
ghost use Rattle.value_tables.specs.Values.{ValueTable};
ghost use Rattle.text_pieces.specs.Telling.{Tells};
ghost use Rattle.context_scaling.specs.Scaling.{PlanRecord};
ghost use Rattle.context_scaling.specs.PlanForm.{plan_form};
ghost use Rattle.context_scaling.specs.Refusals.{IsRefused, MakePlan};
ghost use Rattle.context_scaling.specs.declared.PlanFault.{PlanFault};
ghost use Rattle.context_scaling.specs.declared.PlanFault.TheVariants as fault;

/// Each refusal of a plan is a property of its records, and comes if and only if they have it: the first record at fault decides, and
/// of its faults the one that a record is tried for first. Bytes that are no text come before all records.
pub fn refusals_of_plans()
    ensures text { (t : ValueTable) (bytes : List ℕ) (at : ℕ) → EachName t.attributes
        → (plan_form t bytes ≡ Err (fault.NotUtf8 at)) ↔ ((at ≡ utf8_valid_len bytes) × (at < length bytes)) }
    ensures records { (t : ValueTable) (bytes : List ℕ) (e : PlanFault) → EachName t.attributes → IsUtf8 bytes
        → (plan_form t bytes ≡ Err e) ↔ IsRefused t (csv_records bytes) e }
{}

/// The records of a file make a plan if and only if each, behind those before it, names its scaling and is at fault in no way.
pub fn records_of_plans()
    ensures { (t : ValueTable) (bytes : List ℕ) (plan : List PlanRecord) → EachName t.attributes → IsUtf8 bytes
        → (plan_form t bytes ≡ Ok plan) ↔ MakePlan t (csv_records bytes) plan }
{}

/// The bytes of a file have no two answers for a table of values: if neither is that memory ran out, they are equal.
pub fn plans_have_one_answer()
    ensures { (t : ValueTable) (bytes : List ℕ) (a b : Result (List PlanRecord) PlanFault)
        → Tells fault.Memory a (plan_form t bytes) → Tells fault.Memory b (plan_form t bytes)
        → a ≢ Err fault.Memory → b ≢ Err fault.Memory → a ≡ b }
{}
