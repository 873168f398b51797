//! Laws of the definitions, each the contract of a function that does nothing.

ghost use Rattle.std.specs.Prelude.{◌≡◌, ◌≢◌, ℕ, List, Result, Ok, Err};
ghost use Rattle.value_tables.specs.Values.{ValueTable};
ghost use Rattle.text_pieces.specs.Telling.{Tells};
ghost use Rattle.value_tables.specs.Form.{values_form};
ghost use Rattle.value_tables.specs.Written.{IsValueTable, values_text};
ghost use Rattle.value_tables.specs.declared.ValuesFault.{ValuesFault};
ghost use Rattle.value_tables.specs.declared.ValuesFault.TheVariants as fault;

/// A table of values that is written as records reads back.
pub fn written_values_read_back()
    ensures { (t : ValueTable) → IsValueTable t → values_form (values_text t) ≡ Ok t }
{}

/// The bytes of a file have no two answers: if neither is that memory ran out, they are equal.
pub fn values_have_one_answer()
    ensures { (bytes : List ℕ) (a b : Result ValueTable ValuesFault)
        → Tells fault.Memory a (values_form bytes) → Tells fault.Memory b (values_form bytes)
        → a ≢ Err fault.Memory → b ≢ Err fault.Memory → a ≡ b }
{}
