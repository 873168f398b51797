//! A list of implications reduced to the members of its basis. Each premise is closed under the other implications, and an implication that follows from them is
//! dropped. (Day, "The lattice theory of functional dependencies and normal decompositions", 1992.)

ghost use Rattle.std.specs.Prelude.{◌≡◌, ◌++◌, ◌∷◌, [], OnOk, IfOk, true, length};
ghost use Rattle.fca_model.specs.Context.{Context};
ghost use Rattle.fca_model.specs.Implications.{equivalent};
ghost use Rattle.fca_model.specs.Pseudo.{basis};
ghost use Rattle.fca_model.specs.Invariant.{SameMembers};
ghost use Rattle.implication_closure.specs.Closing.{HaveWidth};
ghost use Rattle.canonical_basis.specs.Reduced.{context_of, IsReduced};

use crate::ordering::close_premises;
use fca_model::Memory;
use implication_closure::{Implication, ImplicationList};
use std::alloc::Global;

/// The members of the basis of the list, in some order.
pub(crate) fn reduce_list(alloc: Global, list: &ImplicationList) -> Result<ImplicationList, Memory>
    ensures members { IfOk result (λ reduced. SameMembers reduced.members (basis (context_of list.now))) }
    ensures equivalent { OnOk result (equivalent list.now.width (basis (context_of list.now)) list.now.members ≡ true) }
{
    let full = close_premises(alloc, list)?;
    let mut reduced = ImplicationList::new(alloc, list.width())?;
    reduce_all(alloc, &mut reduced, full.as_slice())?;
    Ok(reduced)
}

/// Reduces the members one after the other.
fn reduce_all(
    alloc: Global,
    reduced: &mut ImplicationList,
    members: &[Implication],
) -> Result<(), Memory>
    requires { HaveWidth reduced.old.width members.now }
    ensures { (K : Context) → K.width ≡ reduced.old.width → IsReduced K reduced.old.members members.now
        → OnOk result (IsReduced K reduced.new.members []) }
{
    for i in 0..members.len() {
        reduce(alloc, reduced, &members[i], &members[i + 1..])?;
    }
    Ok(())
}

/// Reduces one member by what is reduced and by the rest.
fn reduce(
    alloc: Global,
    reduced: &mut ImplicationList,
    member: &Implication,
    rest: &[Implication],
) -> Result<(), Memory>
    requires premise { length member.now.premise ≡ reduced.old.width }
    requires conclusion { length member.now.conclusion ≡ reduced.old.width }
    requires rest { HaveWidth reduced.old.width rest.now }
    ensures width { reduced.new.width ≡ reduced.old.width }
    ensures reduced { (K : Context) → K.width ≡ reduced.old.width → IsReduced K reduced.old.members (member.now ∷ rest.now)
        → OnOk result (IsReduced K reduced.new.members rest.now) }
{
    let others = list_of_both(alloc, reduced, rest)?;
    let premise = others.naive_closure(&member.premise);
    if !member.conclusion.within(&premise) {
        reduced.push(Implication {
            premise,
            conclusion: member.conclusion,
        })?;
    }
    Ok(())
}

/// The implications of both lists, those of the first in front.
fn list_of_both(
    alloc: Global,
    first: &ImplicationList,
    second: &[Implication],
) -> Result<ImplicationList, Memory>
    requires { HaveWidth first.now.width second.now }
    ensures { IfOk result (λ list. list ≡ record { width = first.now.width; members = first.now.members ++ second.now }) }
{
    let mut list = ImplicationList::new(alloc, first.width())?;
    list.extend_from_slice(first.as_slice())?;
    list.extend_from_slice(second)?;
    Ok(list)
}
