//! Laws of the texts. Each is the contract of a function that does nothing.

ghost use Rattle.std.specs.Prelude.{◌≡◌, ◌++◌, ℕ, [], List, true, false, Some, length};
ghost use Rattle.std.specs.List.{list_all};
ghost use Rattle.fca_model.specs.Tables.{Text, NamedContext};
ghost use Rattle.fca_model.specs.Exploration.{Settings, SetEntry, IsLegal, opening, open_in};
ghost use Rattle.expert_wire.specs.Patterns.{is_name};
ghost use Rattle.text_pieces.specs.Lists.{EachName};
ghost use Rattle.expert_scripts.specs.Transcripts.{SettingsCanBeWritten};
ghost use Rattle.fca_model.specs.Pseudo.{basis, basis_known};
ghost use Rattle.fca_model.specs.Invariant.{rows_respect};
ghost use Rattle.fca_model.specs.Sets.{Set};
ghost use Rattle.fca_model.specs.Implications.{Rule, rule, holds};
ghost use Rattle.canonical_basis.specs.Derivations.{is_sound};
ghost use Rattle.basis_report.specs.Comments.{comments, are_lines};
ghost use Rattle.oracle_expert.specs.Oracles.{Conflicts};
ghost use Rattle.basis_report.specs.Conflicts.{conflicts_text};
ghost use Rattle.basis_report.specs.Sessions.{sessions_text};
ghost use Rattle.basis_report.specs.Verdicts.{first_refuting, derivation_text, refutation_text, follows_text};
ghost use Rattle.basis_report.specs.Explorations.{EachNamed, explore_text, Spells, SpellsBefore, state_of_history, basis_lines};
ghost use Rattle.basis_report.specs.Explorations.{basis_section, text_before_basis};

/// The text of an exploration spells its settings and its history.
pub fn exploration_reads_back()
    ensures { (t : NamedContext) (settings : Settings) (H : List SetEntry) → EachName t.attributes
        → SettingsCanBeWritten t.context.width settings → EachNamed H
        → IsLegal (opening t.context t.objects settings) H → Spells t settings H (explore_text t settings H) }
{}

/// The text of an exploration spells the same if lines that begin with `#` follow, as those of conflicts and of sessions do.
pub fn comments_change_nothing()
    ensures any { (t : NamedContext) (settings : Settings) (H : List SetEntry) (lines : List Text) → EachName t.attributes
        → SettingsCanBeWritten t.context.width settings → EachNamed H
        → IsLegal (opening t.context t.objects settings) H → are_lines lines ≡ true → SpellsBefore t settings H lines }
    ensures conflicts { (t : NamedContext) (settings : Settings) (H : List SetEntry) (rules : List Rule)
        (oracles : List (NamedContext × Conflicts)) → EachName t.attributes → SettingsCanBeWritten t.context.width settings → EachNamed H
        → IsLegal (opening t.context t.objects settings) H
        → list_all (λ o. list_all is_name o.0.objects) oracles ≡ true
        → Spells t settings H (explore_text t settings H ++ conflicts_text t.attributes rules oracles) }
    ensures sessions { (t : NamedContext) (settings : Settings) (H : List SetEntry) (endings : List Text) → EachName t.attributes
        → SettingsCanBeWritten t.context.width settings → EachNamed H
        → IsLegal (opening t.context t.objects settings) H → are_lines endings ≡ true
        → Spells t settings H (explore_text t settings H ++ sessions_text endings) }
{}

/// If no question is open, the text of an exploration ends with the basis of all rows relative to what is known, from scratch.
pub fn finished_ends_with_basis()
    ensures section { (t : NamedContext) (settings : Settings) (H : List SetEntry) → rows_respect settings.known t.context ≡ true
        → IsLegal (opening t.context t.objects settings) H
        → open_in (state_of_history t settings H) ≡ [] → basis_section t.attributes (state_of_history t settings H).accepted []
        ≡ basis_lines t.attributes (basis_known settings.known (state_of_history t settings H).context) }
    ensures text { (t : NamedContext) (settings : Settings) (H : List SetEntry) → rows_respect settings.known t.context ≡ true
        → IsLegal (opening t.context t.objects settings) H
        → open_in (state_of_history t settings H) ≡ [] → explore_text t settings H
        ≡ text_before_basis t settings H ++ basis_lines t.attributes (basis_known settings.known (state_of_history t settings H).context) }
{}

/// The verdict on an implication is right. If the implication holds, the verdict is a sound derivation from the basis. Else it is the
/// first row that refutes the implication.
pub fn verdict_is_right()
    ensures held { (t : NamedContext) (P C : Set) → length P ≡ t.context.width → length C ≡ t.context.width
        → holds t.context (rule P C) ≡ true
        → (steps : List ℕ) × (is_sound (basis t.context) P C steps ≡ true)
        × (follows_text t (basis t.context) P C ≡ derivation_text t.attributes (basis t.context) steps) }
    ensures refuted { (t : NamedContext) (P C : Set) → length C ≡ t.context.width → holds t.context (rule P C) ≡ false
        → (place : ℕ) × (first_refuting t (rule P C) ≡ Some place) × (follows_text t (basis t.context) P C ≡ refutation_text t place) }
{}
