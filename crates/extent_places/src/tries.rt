//! From which attributes a child of an intent may come.

ghost use Rattle.std.specs.Prelude.{◌≡◌, ◌≤◌, ◌<◌, ◌+◌, ℕ, false, All, MatchOption, length, slice_index_or};
ghost use Rattle.fca_model.specs.Context.{extent};
ghost use Rattle.extent_places.specs.Places.{has_at};
ghost use Rattle.extent_places.specs.Tries.{AreAttributesToTry, LacksBetween};

use attr_bits::Bits;
use derivation::RowsOf;

/// The rows of an extent are joined if it has no more objects than this.
const MOST_JOINED: usize = 4;

/// The attributes from which a child of a may come. If a has no more objects than `MOST_JOINED`, these are the attributes that one of the objects has, and the first that a lacks. With
/// any other attribute no object is left, so the closure is the full set, and that has an earlier attribute that a lacks.
pub fn attributes_to_try<const W: usize>(rows: &RowsOf<W>, a: &Bits<W>, places: &[u16]) -> Bits<W>
    requires wide { length a.now ≡ rows.now.width }
    requires places { places.now ≡ extent rows.now a.now }
    ensures wide { length result ≡ rows.now.width }
    ensures tries { AreAttributesToTry rows.now a.now result }
{
    let full = Bits::full(rows.width());
    if places.len() > MOST_JOINED {
        return full.minus(a);
    }
    let mut reached = join_of_rows(rows, a, places);
    if let Some(first) = full.first_missing(a) {
        reached.insert(first);
    }
    reached.minus(a)
}

/// The attributes that one of the objects of a has.
fn join_of_rows<const W: usize>(rows: &RowsOf<W>, a: &Bits<W>, places: &[u16]) -> Bits<W>
    requires places { places.now ≡ extent rows.now a.now }
    ensures wide { length result ≡ rows.now.width }
    ensures rest { (i : ℕ) → i < rows.now.width → slice_index_or result i false ≡ false → All (λ p. has_at rows.now.rows i p ≡ false) places.now }
{
    let mut reached = Bits::empty(rows.width());
    let all = rows.as_slice();
    for place in places {
        reached = reached.join(&all[*place as usize]);
    }
    reached
}

/// The last member that lies from one place on and before another.
pub fn last_member<const W: usize>(set: &Bits<W>, from: u32, end: u32) -> Option<u32>
    requires { end ≤ length set.now }
    ensures { MatchOption result
        (LacksBetween set.now from end)
        (λ last. (from ≤ last) × (last < end) × LacksBetween set.now (last + 1) end) }
{
    for i in (from..end).rev() {
        if set.has(i) {
            return Some(i);
        }
    }
    None
}
