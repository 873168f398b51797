//! The Duquenne-Guigues basis of a context or of a list of implications, and derivations from a list.
#![tactic(auto)]

mod derivations;
mod ordering;
mod reducing;

ghost use Rattle.std.specs.Prelude.{◌≡◌, IfOk, true};
ghost use Rattle.fca_model.specs.Implications.{equivalent};
ghost use Rattle.fca_model.specs.Pseudo.{basis};
ghost use Rattle.pseudo_levels.specs.LeastBasis.{IsLeastBasis};
ghost use Rattle.canonical_basis.specs.Reduced.{context_of};

use derivation::Rows;
pub use derivations::{Derivation, check, derive};
use fca_model::Memory;
use implication_closure::ImplicationList;
use lectic_basis::known_with_basis;
use ordering::{close_in_list, premises_in_order};
use reducing::reduce_list;
use std::alloc::Global;
use std::thread::Threads;

/// The Duquenne-Guigues basis of the context with these rows, in lectic order of the premises. The runtime is a parameter, so that callers stay as they are
/// whether the basis is found in threads, as `pseudo_levels` does, or, as here, in one.
pub fn basis<R: Threads + Sync>(
    _rt: &R,
    alloc: Global,
    rows: &Rows,
) -> Result<ImplicationList, Memory>
    ensures members { IfOk result (λ list. list ≡ record { width = rows.now.width; members = basis rows.now }) }
    ensures least { IfOk result (λ list. IsLeastBasis rows.now list.members) }
{
    let nothing = ImplicationList::new(alloc, rows.width())?;
    known_with_basis(alloc, rows, &nothing)
}

/// The Duquenne-Guigues basis of the context whose rows are all sets that respect the list, in lectic order of the premises. Nothing lists these sets.
/// The runtime is a parameter as it is of `basis`.
pub fn basis_of_list<R: Threads + Sync>(
    _rt: &R,
    alloc: Global,
    list: &ImplicationList,
) -> Result<ImplicationList, Memory>
    ensures members { IfOk result (λ found. found ≡ record { width = list.now.width; members = basis (context_of list.now) }) }
    ensures least { IfOk result (λ found. IsLeastBasis (context_of list.now) found.members) }
    ensures equivalent { IfOk result (λ found. equivalent list.now.width found.members list.now.members ≡ true) }
{
    let reduced = reduce_list(alloc, list)?;
    let premises = premises_in_order(alloc, reduced.as_slice())?;
    close_in_list(alloc, list, &premises)
}
