//! The proper premises by sizes. They are among the free sets, of which no member lies in the closure of the others. Only two sizes of free sets are kept at a
//! time, and nothing lists all sets.

ghost use Rattle.std.specs.Prelude.{◌≡◌, ◌≤◌, ◌++◌, ◌∷◌, [], ◌+◌, false, IfOk, OnOk, MatchOption, All, length, filter};
ghost use Rattle.std.specs.List.{flat_map, range_with_len};
ghost use Rattle.fca_model.specs.Sets.{all_sets};
ghost use Rattle.direct_basis.specs.Direct.{proper};
ghost use Rattle.direct_basis.specs.Levels.{free, IsOfFree, first_place, larger, visited, placed};

use attr_bits::Attrs;
use derivation::Rows;
use fca_model::Memory;
use std::alloc::Global;
use std::collections::BTreeSet;

/// The proper premises in lectic order.
pub(crate) fn proper_sets(alloc: Global, rows: &Rows) -> Result<Vec<Attrs>, Memory>
    ensures { IfOk result (λ sets. sets.items ≡ filter (proper rows.now) (all_sets rows.now.width)) }
{
    let found = search(alloc, rows)?;
    let _count = found.len();
    Ok(found.iter().copied().collect(alloc)?)
}

/// The proper premises among the visited sets, from the empty set to the largest.
fn search(alloc: Global, rows: &Rows) -> Result<BTreeSet<Attrs>, Memory>
    ensures { IfOk result (λ found. found.keys ≡ placed [] (filter (proper rows.now) (flat_map (visited rows.now) (range_with_len 0 (rows.now.width + 1))))) }
{
    let mut found = BTreeSet::new(alloc);
    let mut free_sets = Vec::new(alloc);
    visit(rows, Attrs::empty(rows.width()), &mut free_sets, &mut found)?;
    for _size in 0..rows.width() {
        free_sets = larger_free_sets(alloc, rows, &free_sets, &mut found)?;
    }
    Ok(found)
}

/// The free sets with one attribute more than these. The proper premises among the visited sets join those that were found.
fn larger_free_sets(
    alloc: Global,
    rows: &Rows,
    free_sets: &[Attrs],
    found: &mut BTreeSet<Attrs>,
) -> Result<Vec<Attrs>, Memory>
    requires { All (λ A. length A ≡ rows.now.width) free_sets.now }
    ensures free_sets { IfOk result (λ next. next.items ≡ filter (free rows.now) (flat_map larger free_sets.now)) }
    ensures found { OnOk result (found.new.keys ≡ placed found.old.keys (filter (proper rows.now) (flat_map larger free_sets.now))) }
{
    let mut next = Vec::new(alloc);
    for set in free_sets {
        grow(rows, set, &mut next, found)?;
    }
    Ok(next)
}

/// Visits the set with each attribute that comes before all its members.
fn grow(
    rows: &Rows,
    set: &Attrs,
    free_sets: &mut Vec<Attrs>,
    found: &mut BTreeSet<Attrs>,
) -> Result<(), Memory>
    requires { length set.now ≡ rows.now.width }
    ensures free_sets { OnOk result (free_sets.new.items ≡ free_sets.old.items ++ filter (free rows.now) (larger set.now)) }
    ensures found { OnOk result (found.new.keys ≡ placed found.old.keys (filter (proper rows.now) (larger set.now))) }
{
    for i in 0..first_place(set) {
        visit(rows, set.with(i), free_sets, found)?;
    }
    Ok(())
}

/// The place of the first member, or the width if there is none.
fn first_place(set: &Attrs) -> u32
    ensures first { result ≡ first_place set.now }
    ensures below { result ≤ length set.now }
{
    match set.next_member(0) {
        Some(place) => place,
        None => set.width(),
    }
}

/// Appends the set to the free sets if it is free, and adds it to those found if it is a proper premise.
fn visit(
    rows: &Rows,
    set: Attrs,
    free_sets: &mut Vec<Attrs>,
    found: &mut BTreeSet<Attrs>,
) -> Result<(), Memory>
    requires { length set ≡ rows.now.width }
    ensures free_sets { OnOk result (free_sets.new.items ≡ free_sets.old.items ++ filter (free rows.now) (set ∷ [])) }
    ensures found { OnOk result (found.new.keys ≡ placed found.old.keys (filter (proper rows.now) (set ∷ []))) }
{
    if let Some(joined) = join_of_parts(rows, &set) {
        free_sets.push(set)?;
        if rows.closure(&set) != joined {
            found.insert(set)?;
        }
    }
    Ok(())
}

/// The set joined with the closures of the set without one member. There is none if such a closure has the member again.
fn join_of_parts(rows: &Rows, set: &Attrs) -> Option<Attrs>
    requires { length set.now ≡ rows.now.width }
    ensures { MatchOption result (free rows.now set.now ≡ false) (λ joined. IsOfFree rows.now set.now joined) }
{
    let mut joined = *set;
    for a in 0..set.width() {
        if set.has(a) {
            let closed = rows.closure(&set.without(a));
            if closed.has(a) {
                return None;
            }
            joined = joined.join(&closed);
        }
    }
    Some(joined)
}
