//! The implications from a to {a, b} and from a to {a, c}, over the attributes a, b and c.

ghost use Rattle.std.specs.Prelude.{◌≡◌, IfOk};

use attr_bits::Attrs;
use canonical_basis::{Derivation, basis_of_list, check};
use fca_model::Memory;
use implication_closure::{Implication, ImplicationList};
use std::alloc::Global;
use std::rt::HostRuntime;

/// The list of both.
fn two_rules(alloc: Global) -> Result<ImplicationList, Memory>
    ensures { IfOk result (λ list. list.width ≡ 3) }
{
    let premise = Attrs::empty(3).with(0);
    let mut list = ImplicationList::new(alloc, 3)?;
    list.push(Implication {
        premise,
        conclusion: premise.with(1),
    })?;
    list.push(Implication {
        premise,
        conclusion: premise.with(2),
    })?;
    Ok(list)
}

/// Whether these steps derive everything from a.
fn derives(alloc: Global, list: &ImplicationList, steps: &[usize]) -> Result<bool, Memory>
    requires { list.now.width ≡ 3 }
{
    let steps = Derivation::new(alloc, steps)?;
    Ok(check(list, &Attrs::empty(3).with(0), &Attrs::full(3), &steps))
}

#[test]
fn both_steps_are_a_derivation_and_one_is_none(rt: HostRuntime) -> Result<(), Memory> {
    let alloc = rt.alloc();
    let list = two_rules(alloc)?;
    let derived = [
        derives(alloc, &list, &[1, 0])?,
        derives(alloc, &list, &[0])?,
        derives(alloc, &list, &[2])?,
    ];
    assert!(&rt; derived == [true, false, false]);
    Ok(())
}

#[test]
fn the_basis_of_both_is_one_implication(rt: HostRuntime) -> Result<(), Memory> {
    let list = two_rules(rt.alloc())?;
    let found = basis_of_list(&rt, rt.alloc(), &list)?;
    let whole = Implication {
        premise: Attrs::empty(3).with(0),
        conclusion: Attrs::full(3),
    };
    assert!(&rt; found.as_slice() == [whole].as_slice());
    Ok(())
}
