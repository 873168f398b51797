//! A law of JSON, the contract of a function that does nothing.

ghost use Rattle.std.specs.Prelude.{◌≡◌, List};
ghost use Rattle.fca_model.specs.Tables.{Text, NamedContext};
ghost use Rattle.fca_model.specs.Implications.{Rule};
ghost use Rattle.lectic_concepts.specs.declared.Concept.{Concept};
ghost use Rattle.json_reports.specs.Json.{concepts_json, basis_json, concepts_json_text, basis_json_text};

/// The lines of JSON, letter by letter.
pub fn json_is_written_out()
    ensures concepts { (t : NamedContext) (cs : List Concept) → concepts_json t cs ≡ concepts_json_text t cs }
    ensures basis { (attributes : List Text) (J : List Rule) → basis_json attributes J ≡ basis_json_text attributes J }
{}
