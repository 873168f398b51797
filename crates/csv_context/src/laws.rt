//! Laws of the definitions, each the contract of a function that does nothing.

ghost use Rattle.std.specs.Prelude.{◌≡◌, ◌≢◌, ℕ, List, Result, Err};
ghost use Rattle.fca_model.specs.Tables.{NamedContext};
ghost use Rattle.text_pieces.specs.Telling.{Tells};
ghost use Rattle.csv_context.specs.Form.{csv_form};
ghost use Rattle.csv_context.specs.declared.CsvFault.{CsvFault};
ghost use Rattle.csv_context.specs.declared.CsvFault.TheVariants as fault;

/// The bytes of a file have no two answers: if neither is that memory ran out, they are equal.
pub fn csv_has_one_answer()
    ensures { (bytes : List ℕ) (a b : Result NamedContext CsvFault)
        → Tells fault.Memory a (csv_form bytes) → Tells fault.Memory b (csv_form bytes)
        → a ≢ Err fault.Memory → b ≢ Err fault.Memory → a ≡ b }
{}
