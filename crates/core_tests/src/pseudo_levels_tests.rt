//! Three attributes.

use crate::tables::nominal_rows;
use attr_bits::Attrs;
use derivation::Rows;
use fca_model::Memory;
use implication_closure::{Implication, ImplicationList};
use pseudo_levels::{MemberIndex, basis_by_levels, judge_all, level};
use std::rt::HostRuntime;

/// The answers for sets that are all members of the basis, with everything as their conclusion.
fn to_all(sets: [Attrs; 3]) -> [Option<Implication>; 3] {
    sets.map(|premise| {
        Some(Implication {
            premise,
            conclusion: Attrs::full(3),
        })
    })
}

/// The sets of two attributes.
fn pairs() -> [Attrs; 3] {
    let all = Attrs::full(3);
    [all.without(0), all.without(1), all.without(2)]
}

// Each object of the nominal scale has one attribute alone, so no object has two.
#[test]
fn pairs_are_judged_side_by_side(rt: HostRuntime) -> Result<(), Memory> {
    let rows = nominal_rows(rt.alloc())?;
    let smaller = ImplicationList::new(rt.alloc(), 3)?;
    let answers = level(&rt, rt.alloc(), &rows, &smaller, &pairs())?;
    assert!(&rt; answers.as_slice() == to_all(pairs()).as_slice());
    Ok(())
}

#[test]
fn pairs_are_judged_one_by_one(rt: HostRuntime) -> Result<(), Memory> {
    let rows = nominal_rows(rt.alloc())?;
    let smaller = MemberIndex::new(rt.alloc(), 3)?;
    let answers = judge_all(rt.alloc(), &rows, &smaller, &pairs())?;
    assert!(&rt; answers.as_slice() == to_all(pairs()).as_slice());
    Ok(())
}

// One object has the last attribute alone, so there is one member of size 0 and there are two of size 2.
#[test]
fn the_basis_of_one_row_by_levels(rt: HostRuntime) -> Result<(), Memory> {
    let last = Attrs::empty(3).with(2);
    let mut rows = Rows::new(rt.alloc(), 3)?;
    rows.push(last)?;
    let basis = basis_by_levels(&rt, rt.alloc(), &rows)?;
    let members = basis.as_slice();
    assert!(&rt; members.len() == 3 && members[0].conclusion == last);
    assert!(&rt; members[2].premise == last.with(0));
    Ok(())
}

#[test]
fn no_member_of_an_empty_index_is_broken(rt: HostRuntime) -> Result<(), Memory> {
    let list = ImplicationList::new(rt.alloc(), 3)?;
    let index = MemberIndex::of(rt.alloc(), &list)?;
    assert!(&rt; index.broken_member(&Attrs::full(3)).is_none());
    Ok(())
}
