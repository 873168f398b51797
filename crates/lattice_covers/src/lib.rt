//! The covers among the intents of a context, found by the next larger intents of each.
#![tactic(auto)]

mod chain;
mod places;

ghost use Rattle.std.specs.Prelude.{◌≡◌, ◌++◌, ◌≤◌, ◌*◌, true, filter, length, IfOk, OnOk};
ghost use Rattle.fca_model.specs.Sets.{increasing};
ghost use Rattle.fca_model.specs.Pseudo.{intents as closed_sets, covers, is_cover};
ghost use Rattle.lattice_covers.specs.Neighbours.{IsLink, pairs_with};

use attr_bits::{Attrs, Bits, WORDS, WordCount};
use chain::{Link, allowed_closure, link_of};
use derivation::{Rows, RowsOf};
use extent_places::{has, insert};
use fca_model::Memory;
use lectic_concepts::resize_sets;
use places::{no_places, place_in};
use std::alloc::Global;

/// The pairs of places of intents of which the second is a next larger intent of the first, ordered by the first and then the second. They are found in sets
/// as narrow as the table.
pub fn covers(alloc: Global, rows: &Rows, intents: &[Attrs]) -> Result<Vec<(usize, usize)>, Memory>
    requires { intents.now ≡ closed_sets rows.now }
    ensures { IfOk result (λ pairs. pairs.items ≡ covers rows.now) }
{
    match WordCount::of(rows.width()) {
        WordCount::One => narrow_covers::<1>(alloc, rows, intents),
        WordCount::Two => narrow_covers::<2>(alloc, rows, intents),
        WordCount::Four => narrow_covers::<4>(alloc, rows, intents),
        WordCount::Eight => narrow_covers::<8>(alloc, rows, intents),
        WordCount::All => covers_of(alloc, rows, intents),
    }
}

/// The covers, found in sets of W words.
fn narrow_covers<const W: usize>(
    alloc: Global,
    rows: &Rows,
    intents: &[Attrs],
) -> Result<Vec<(usize, usize)>, Memory>
    requires words { W ≤ 1024 }
    requires fits { rows.now.width ≤ 64 * W }
    requires intents { intents.now ≡ closed_sets rows.now }
    ensures { IfOk result (λ pairs. pairs.items ≡ covers rows.now) }
{
    let narrow = rows.resize::<W>(alloc)?;
    let sets = resize_sets::<WORDS, W>(alloc, rows.width(), intents)?;
    covers_of(alloc, &narrow, &sets)
}

/// The covers, of sets of as many words as the rows have.
pub fn covers_of<const W: usize>(
    alloc: Global,
    rows: &RowsOf<W>,
    intents: &[Bits<W>],
) -> Result<Vec<(usize, usize)>, Memory>
    requires { intents.now ≡ closed_sets rows.now }
    ensures { IfOk result (λ pairs. pairs.items ≡ covers rows.now) }
{
    let mut latest = no_places(alloc, rows.width())?;
    let mut chain = Vec::new(alloc);
    let mut neighbours = Vec::new(alloc);
    let mut pairs = Vec::new(alloc);
    for (i, a) in intents.iter().enumerate() {
        let mut link = link_of(alloc, rows, &mut chain, a)?;
        find_neighbours(&mut neighbours, rows, &mut link)?;
        add_pairs(&mut pairs, intents, &mut latest, i, a, &neighbours)?;
        chain.push(link)?;
    }
    Ok(pairs)
}

/// Puts the next larger intents into the list, in the place of what it had. The closure of the intent with one attribute more is one of them, unless it has
/// another new attribute that is still to be tried or that gave one already (Lindig, "Fast concept analysis", 2000).
fn find_neighbours<const W: usize>(
    neighbours: &mut Vec<Bits<W>>,
    rows: &RowsOf<W>,
    link: &mut Link<W>,
) -> Result<(), Memory>
    requires wide { length link.old.intent ≡ rows.now.width }
    requires link { IsLink rows.now link.old }
    ensures found { OnOk result (neighbours.new.items
        ≡ filter (is_cover (closed_sets rows.now) link.old.intent) (closed_sets rows.now)) }
    ensures link { IsLink rows.now link.new }
    ensures intent { link.new.intent ≡ link.old.intent }
{
    neighbours.clear();
    let mut settled = link.intent;
    let mut allowed = link.intent;
    for i in (0..rows.width()).rev() {
        if !has(&link.intent, i) {
            insert(&mut allowed, i);
            if let Some(closed) = allowed_closure(rows, link, i, &allowed) {
                neighbours.push(closed)?;
                allowed = settled;
            } else {
                insert(&mut settled, i);
            }
        }
    }
    Ok(())
}

/// Puts the pairs of i and the place of each of the sets last. The sets are larger than a.
fn add_pairs<const W: usize>(
    pairs: &mut Vec<(usize, usize)>,
    intents: &[Bits<W>],
    latest: &mut [usize],
    i: usize,
    a: &Bits<W>,
    sets: &[Bits<W>],
) -> Result<(), Memory>
    requires { increasing intents.now ≡ true }
    ensures { OnOk result (pairs.new.items ≡ pairs.old.items ++ pairs_with intents.now i sets.now) }
{
    for x in sets {
        pairs.push((i, place_in(intents, latest, i, a, x)))?;
    }
    Ok(())
}
