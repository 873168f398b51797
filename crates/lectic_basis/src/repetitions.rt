//! Rows without most of their repetitions. A row that repeats another changes no closure, so the basis of these rows is that of all.

ghost use Rattle.std.specs.Prelude.{◌≡◌, ◌<◌, ◌&&◌, Bool, length, OnOk, IfOk, IfSome};
ghost use Rattle.std.specs.List.{list_all};
ghost use Rattle.fca_model.specs.Sets.{Set};
ghost use Rattle.lectic_basis.specs.Rows.{HaveSameRows};

use attr_bits::Bits;
use derivation::RowsOf;
use fca_model::Memory;
use std::alloc::Global;

/// A table with no more rows than this is left as it is.
const FEW_ROWS: usize = 256;

/// The rows without most of their repetitions, or all of them if few repeat.
pub(crate) fn without_repetitions<const W: usize>(
    alloc: Global,
    rows: RowsOf<W>,
) -> Result<RowsOf<W>, Memory>
    ensures { IfOk result (λ kept. HaveSameRows kept rows.entry) }
{
    if rows.len() <= FEW_ROWS {
        return Ok(rows);
    }
    match fewer_rows(alloc, &rows)? {
        Some(fewer) => Ok(fewer),
        None => Ok(rows),
    }
}

/// The rows without most of their repetitions: each has a slot by its hash, and is left out if it is the row that was kept last for that slot. None once more are
/// kept than half of the rows so far and a sixteenth of all, so a table without repetitions is soon given up.
fn fewer_rows<const W: usize>(alloc: Global, rows: &RowsOf<W>) -> Result<Option<RowsOf<W>>, Memory>
    ensures { IfOk result (λ kept. IfSome kept (λ K. HaveSameRows K rows.now)) }
{
    let mut kept = RowsOf::new(alloc, rows.width())?;
    let mut slots = vec![in alloc; 0; slot_count(rows.len())]?;
    for (count, row) in rows.as_slice().iter().enumerate() {
        if rows.len() / 16 + count / 2 < kept.len() {
            return Ok(None);
        }
        let slot = slot_of(row, slots.len());
        push_unless_at(&mut kept, &mut slots[slot], row)?;
    }
    Ok(Some(kept))
}

/// Puts the row last, and notes its place, unless it stands at the place that is noted.
fn push_unless_at<const W: usize>(
    kept: &mut RowsOf<W>,
    place: &mut usize,
    row: &Bits<W>,
) -> Result<(), Memory>
    requires { length row.now ≡ kept.old.width }
    ensures width { OnOk result (kept.new.width ≡ kept.old.width) }
    ensures rows { OnOk result ((p : Set → Bool) → list_all p kept.new.rows ≡ (list_all p kept.old.rows && p row.now)) }
{
    if let Some(earlier) = kept.as_slice().get(*place) {
        if *earlier == *row {
            return Ok(());
        }
    }
    *place = kept.len();
    kept.push(*row)
}

/// How many slots there are for so many rows: a power of two, and at least half as many.
fn slot_count(rows: usize) -> usize
    ensures { 0 < result }
{
    (rows / 2).next_power_of_two()
}

/// The slot of a set, among a power of two. The highest bits of a hash depend on all members.
fn slot_of<const W: usize>(a: &Bits<W>, slots: usize) -> usize
    requires { 0 < slots }
    ensures { result < slots }
{
    (a.hash() >> 48) as usize & (slots - 1)
}
