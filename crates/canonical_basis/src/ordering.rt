//! Premises in lectic order, each once, and their implications to their closures.

ghost use Rattle.std.specs.Prelude.{◌≡◌, IfOk, map, true};
ghost use Rattle.std.specs.List.{list_any};
ghost use Rattle.fca_model.specs.Sets.{Set, same, increasing};
ghost use Rattle.fca_model.specs.Context.{closure};
ghost use Rattle.fca_model.specs.Implications.{rule, premises};
ghost use Rattle.pseudo_levels.specs.Search.{AreWide};
ghost use Rattle.canonical_basis.specs.Reduced.{context_of};

use attr_bits::Attrs;
use fca_model::Memory;
use implication_closure::{Implication, ImplicationList, Scratch};
use std::alloc::Global;
use std::collections::BTreeSet;

/// The premises in lectic order, each once.
pub(crate) fn premises_in_order(
    alloc: Global,
    members: &[Implication],
) -> Result<Vec<Attrs>, Memory>
    ensures ordered { IfOk result (λ sets. increasing sets.items ≡ true) }
    ensures members { IfOk result (λ sets. (A : Set) → list_any (same A) sets.items ≡ list_any (same A) (premises members.now)) }
{
    let gathered = gather(alloc, members)?;
    let _count = gathered.len();
    Ok(gathered.iter().copied().collect(alloc)?)
}

/// The premises.
fn gather(alloc: Global, members: &[Implication]) -> Result<BTreeSet<Attrs>, Memory>
    ensures { IfOk result (λ sets. (A : Set) → list_any (same A) sets.keys ≡ list_any (same A) (premises members.now)) }
{
    let mut sets = BTreeSet::new(alloc);
    for i in members {
        sets.insert(i.premise)?;
    }
    Ok(sets)
}

/// The implication of each premise to its closure under the list.
pub(crate) fn close_premises(
    alloc: Global,
    list: &ImplicationList,
) -> Result<ImplicationList, Memory>
    ensures { IfOk result (λ closed. closed ≡ record {
      width = list.now.width;
      members = map (λ P. rule P (closure (context_of list.now) P)) (premises list.now.members);
    }) }
{
    let premises = premises(alloc, list.as_slice())?;
    close_in_list(alloc, list, &premises)
}

/// The premises in their order.
fn premises(alloc: Global, members: &[Implication]) -> Result<Vec<Attrs>, Memory>
    ensures { IfOk result (λ sets. sets.items ≡ premises members.now) }
{
    Ok(members.iter().map(|i| i.premise).collect(alloc)?)
}

/// The implication of each set to its closure under the list.
pub(crate) fn close_in_list(
    alloc: Global,
    list: &ImplicationList,
    sets: &[Attrs],
) -> Result<ImplicationList, Memory>
    requires { AreWide list.now.width sets.now }
    ensures { IfOk result (λ closed. closed ≡ record { width = list.now.width; members = map (λ P. rule P (closure (context_of list.now) P)) sets.now }) }
{
    let mut scratch = Scratch::new(alloc, list)?;
    let mut closed = ImplicationList::new(alloc, list.width())?;
    for set in sets {
        closed.push(Implication {
            premise: *set,
            conclusion: list.closure(&mut scratch, set),
        })?;
    }
    Ok(closed)
}
