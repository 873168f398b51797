//! Laws of the definitions, each the contract of a function that does nothing.

ghost use Rattle.std.specs.Prelude.{◌≡◌, ◌≢◌, ℕ, List, Result, Err};
ghost use Rattle.fca_model.specs.Tables.{NamedContext};
ghost use Rattle.text_pieces.specs.Telling.{Tells};
ghost use Rattle.cxt_format.specs.Form.{cxt_form};
ghost use Rattle.cxt_format.specs.declared.CxtFault.{CxtFault};
ghost use Rattle.cxt_format.specs.declared.CxtFault.TheVariants as fault;

/// The bytes of a file have no two answers: if neither is that memory ran out, they are equal.
pub fn cxt_has_one_answer()
    ensures { (bytes : List ℕ) (a b : Result NamedContext CxtFault)
        → Tells fault.Memory a (cxt_form bytes) → Tells fault.Memory b (cxt_form bytes)
        → a ≢ Err fault.Memory → b ≢ Err fault.Memory → a ≡ b }
{}
