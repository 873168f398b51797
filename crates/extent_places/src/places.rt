//! Extents as places in the table: the places that have one attribute more, and closures by the rows at places.

ghost use Rattle.std.specs.Prelude.{◌≡◌, ◌≤◌, ◌<◌, false, All, IfOk, length, take, filter, fold, slice_index_or};
ghost use Rattle.fca_model.specs.Sets.{meet};
ghost use Rattle.fca_model.specs.Context.{closure, extent};
ghost use Rattle.extent_places.specs.Places.{rows_at};

use attr_bits::Bits;
use derivation::RowsOf;
use fca_model::{MAX_OBJECTS, Memory};
use std::alloc::Global;

/// A meet of no more rows than this begins with the first one.
const FEW_ROWS: usize = 8;

/// The places of the objects that have all of the set.
pub fn places_having<const W: usize>(
    alloc: Global,
    rows: &RowsOf<W>,
    set: &Bits<W>,
) -> Result<Vec<u16>, Memory>
    requires { length rows.now.rows ≤ MAX_OBJECTS }
    ensures { IfOk result (λ places. places.items ≡ extent rows.now set.now) }
{
    let extent = rows.extent(alloc, set)?;
    let all = extent.as_slice();
    let mut places = Vec::with_capacity(alloc, all.len())?;
    for place in all {
        places.push(*place as u16)?;
    }
    Ok(places)
}

/// Puts the places that are in the column into the front of `found`, and counts them. Each place is written, and the next one overwrites it unless it is in the
/// column, so no step waits for a test.
pub fn keep_having(column: &[bool], places: &[u16], found: &mut [u16]) -> usize
    requires inside { All (λ p. p < length column.now) places.now }
    requires room { length places.now ≤ length found.old }
    ensures found { take result found.new ≡ filter (λ p. slice_index_or column.now p false) places.now }
    ensures few { result ≤ length places.now }
    ensures room { length found.new ≡ length found.old }
{
    let mut count = 0;
    for place in places {
        found[count] = *place;
        count += column[*place as usize] as usize;
    }
    count
}

/// The closure of `least`, whose extent is given by places: the meet of their rows. That of many begins with the last row, since in a sorted table the first and
/// the last one differ the most. Once the meet is `least`, the rows that are left change nothing.
pub fn closure_at<const W: usize>(rows: &RowsOf<W>, places: &[u16], least: &Bits<W>) -> Bits<W>
    requires { places.now ≡ extent rows.now least.now }
    ensures { result ≡ closure rows.now least.now }
{
    let all = rows.as_slice();
    let mut met = initial_meet(rows, places, least);
    for place in places {
        met = met.meet(&all[*place as usize]);
        if met == *least {
            return met;
        }
    }
    met
}

/// The set that the meet of the rows at the places begins with: the row at the last one, or the full set if the places are few.
fn initial_meet<const W: usize>(rows: &RowsOf<W>, places: &[u16], least: &Bits<W>) -> Bits<W>
    requires { places.now ≡ extent rows.now least.now }
    ensures { fold meet result (rows_at rows.now.rows places.now) ≡ closure rows.now least.now }
{
    if places.len() <= FEW_ROWS {
        return Bits::full(rows.width());
    }
    match places.last() {
        None => Bits::full(rows.width()),
        Some(place) => rows.as_slice()[*place as usize],
    }
}
