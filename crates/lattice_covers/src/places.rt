//! Where a set stands in a list in lectic order.

ghost use Rattle.std.specs.Prelude.{◌≡◌, true};
ghost use Rattle.std.specs.Ordering.{is_lt};
ghost use Rattle.fca_model.specs.Sets.{increasing, lectic_cmp};
ghost use Rattle.lattice_covers.specs.Neighbours.{place_in};

use attr_bits::Bits;
use fca_model::Memory;
use std::alloc::Global;

/// How many slots there are for each first new attribute.
const SLOTS: usize = 64;

/// The slots of the latest places, all 0.
pub(crate) fn no_places(alloc: Global, width: u32) -> Result<Vec<usize>, Memory> {
    Ok(vec![in alloc; 0; SLOTS * width as usize]?)
}

/// How many of the sets, which are in lectic order, come before x, a next larger intent of the one at place i, which is a. `latest` has for the first two new
/// attributes the place of the last set that had them. Where the new attributes are the same, the larger intents follow each other as the smaller ones do, so x
/// is looked for behind that place first. The set that is found is compared with x before its place is given back.
pub(crate) fn place_in<const W: usize>(
    sets: &[Bits<W>],
    latest: &mut [usize],
    i: usize,
    a: &Bits<W>,
    x: &Bits<W>,
) -> usize
    requires { increasing sets.now ≡ true }
    ensures { result ≡ place_in sets.now x.now }
{
    let slot = slot_of(&x.minus(a));
    let place = place_from(sets, latest_of(latest, slot).max(i), x);
    if let Some(kept) = latest.get_mut(slot) {
        *kept = place;
    }
    place
}

/// The slot of a set with these new attributes, by the first two of them.
fn slot_of<const W: usize>(new: &Bits<W>) -> usize {
    match new.next_member(0) {
        None => 0,
        Some(first) => {
            let second = new.next_member(first.saturating_add(1)).unwrap_or(0);
            SLOTS * first as usize + second as usize % SLOTS
        }
    }
}

/// The place of the last set in this slot, or 0.
fn latest_of(latest: &[usize], slot: usize) -> usize {
    latest.get(slot).copied().unwrap_or(0)
}

/// How many of the sets come before x, looked for behind the given place first.
fn place_from<const W: usize>(sets: &[Bits<W>], before: usize, x: &Bits<W>) -> usize
    requires { increasing sets.now ≡ true }
    ensures { result ≡ place_in sets.now x.now }
{
    let near = place_near(sets, before.saturating_add(1), x);
    if near < sets.len() && sets[near] == *x {
        return near;
    }
    count_before(sets, x)
}

/// A place from the given one on where x may stand. It is looked for by steps that double, and by bisection within the last step.
fn place_near<const W: usize>(sets: &[Bits<W>], from: usize, x: &Bits<W>) -> usize {
    if sets.len() <= from || sets[from] == *x {
        return from;
    }
    let mut low = from;
    for doublings in 0..usize::BITS {
        let high = low.saturating_add(1 << doublings);
        if !comes_before(sets, high, x) {
            return place_between(sets, low, high, x);
        }
        low = high;
    }
    low
}

/// Whether there is a set at this place and it comes before x.
fn comes_before<const W: usize>(sets: &[Bits<W>], place: usize, x: &Bits<W>) -> bool {
    place < sets.len() && sets[place].lectic_cmp(x).is_lt()
}

/// A place from the first one up to the second where x may stand.
fn place_between<const W: usize>(sets: &[Bits<W>], from: usize, to: usize, x: &Bits<W>) -> usize {
    let end = sets.len().min(to);
    if end <= from {
        return from;
    }
    from.saturating_add(count_before(&sets[from..end], x))
}

/// How many of the sets come before x, by bisection.
fn count_before<const W: usize>(sets: &[Bits<W>], x: &Bits<W>) -> usize
    ensures { increasing sets.now ≡ true → result ≡ place_in sets.now x.now }
{
    sets.partition_point(
        |set: &Bits<W>| -> bool
            ensures { result ≡ is_lt (lectic_cmp set.now x.entry.now) }
        { set.lectic_cmp(x).is_lt() },
    )
}
