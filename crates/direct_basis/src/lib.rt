//! The direct basis of a context: implications under which one pass gives the closure of any set.
#![tactic(auto)]

mod levels;
mod passing;

ghost use Rattle.std.specs.Prelude.{◌≡◌, ◌≤◌, IfOk, All, length, map, true};
ghost use Rattle.std.specs.List.{list_all};
ghost use Rattle.fca_model.specs.Sets.{Set};
ghost use Rattle.fca_model.specs.Context.{Context, closure};
ghost use Rattle.fca_model.specs.Implications.{Rule, rule, holds, follows};
ghost use Rattle.fca_model.specs.Pseudo.{basis};
ghost use Rattle.direct_basis.specs.Direct.{direct, one_pass};

use attr_bits::Attrs;
use derivation::Rows;
use fca_model::Memory;
use implication_closure::{Implication, ImplicationList};
use levels::proper_sets;
pub use passing::one_pass;
use std::alloc::Global;

/// One pass over the direct basis gives the closure of any set. Each member holds, each implication that holds follows, and the Duquenne-Guigues basis has no more
/// members.
pub fn direct_is_direct()
    ensures one_pass { (K : Context) (X : Set) → length X ≡ K.width → one_pass (direct K) X ≡ closure K X }
    ensures holds { (K : Context) → list_all (holds K) (direct K) ≡ true }
    ensures follows { (K : Context) (i : Rule) → length i.premise ≡ K.width → holds K i ≡ follows K.width (direct K) i }
    ensures longer { (K : Context) → length (basis K) ≤ length (direct K) }
{}

/// The direct basis of the context with these rows, in lectic order of the premises.
pub fn proper_premises(alloc: Global, rows: &Rows) -> Result<ImplicationList, Memory>
    ensures members { IfOk result (λ list. list ≡ record { width = rows.now.width; members = direct rows.now }) }
    ensures holds { IfOk result (λ list. list_all (holds rows.now) list.members ≡ true) }
    ensures follows { IfOk result (λ list. (i : Rule) → length i.premise ≡ rows.now.width → holds rows.now i ≡ follows rows.now.width list.members i) }
{
    let premises = proper_sets(alloc, rows)?;
    close_in_rows(alloc, rows, &premises)
}

/// The implication of each set to its closure in the rows.
fn close_in_rows(alloc: Global, rows: &Rows, sets: &[Attrs]) -> Result<ImplicationList, Memory>
    requires { All (λ P. length P ≡ rows.now.width) sets.now }
    ensures { IfOk result (λ list. list ≡ record { width = rows.now.width; members = map (λ P. rule P (closure rows.now P)) sets.now }) }
{
    let mut closed = ImplicationList::new(alloc, rows.width())?;
    for set in sets {
        closed.push(Implication {
            premise: *set,
            conclusion: rows.closure(set),
        })?;
    }
    Ok(closed)
}
