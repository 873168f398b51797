//! Which closures of an intent with one attribute more are its children in the tree. A closure that is no child has another attribute before the one that was
//! added. Such a member is a witness, and a larger intent has it in its closure too, so the witness shows beforehand that this closure is no child either
//! (In-Close5 by Andrews, 2018, and FCbO by Krajca, Outrata and Vychodil, 2010).

ghost use Rattle.std.specs.Prelude.{◌≡◌, ◌<◌, ◌+◌, ◌++◌, true, false, IfOk, filter, length, slice_set, slice_index_or};
ghost use Rattle.std.specs.Bool.{MatchBool};
ghost use Rattle.fca_model.specs.Sets.{within};
ghost use Rattle.fca_model.specs.Context.{closure};
ghost use Rattle.lectic_concepts.specs.Branches.{branch, AreWitnesses};

use crate::lasting::lasting_member;
use attr_bits::Bits;
use derivation::RowsOf;
use fca_model::Memory;
use std::alloc::Global;

/// The witnesses to begin with: each attribute is a member of the closure with it.
pub fn own_witnesses<const W: usize>(
    alloc: Global,
    rows: &RowsOf<W>,
    a: &Bits<W>,
) -> Result<Vec<u32>, Memory>
    requires { length a.now ≡ rows.now.width }
    ensures { IfOk result (λ witnesses. AreWitnesses rows.now a.now witnesses.items) }
{
    let mut witnesses = Vec::new(alloc);
    for i in 0..rows.width() {
        witnesses.push(i)?;
    }
    Ok(witnesses)
}

/// Whether the closure of a with attribute i is to be computed: a lacks i, and there is no witness for i that stands before i and that a lacks.
pub fn is_to_try<const W: usize>(rows: &RowsOf<W>, a: &Bits<W>, i: u32, witnesses: &[u32]) -> bool
    requires wide { length a.now ≡ rows.now.width }
    requires inside { i < rows.now.width }
    requires witnesses { AreWitnesses rows.now a.now witnesses.now }
    ensures { MatchBool result (slice_index_or a.now i false ≡ false) (branch rows.now a.now i ≡ branch rows.now a.now (i + 1)) }
{
    if a.has(i) {
        return false;
    }
    let member = witnesses.get(i as usize).copied().unwrap_or(i);
    member >= i || a.has(member)
}

/// Whether the closure of a with attribute i, which a lacks, agrees with a before i.
pub fn is_child<const W: usize>(rows: &RowsOf<W>, a: &Bits<W>, i: u32, closed: &Bits<W>) -> bool
    requires wide { length a.now ≡ rows.now.width }
    requires inside { i < rows.now.width }
    requires lacks { slice_index_or a.now i false ≡ false }
    requires closed { closed.now ≡ closure rows.now (slice_set a.now i true) }
    ensures { MatchBool result
        (branch rows.now a.now i ≡ branch rows.now a.now (i + 1) ++ branch rows.now closed.now (i + 1))
        (branch rows.now a.now i ≡ branch rows.now a.now (i + 1)) }
{
    let _width = rows.width();
    closed.first_missing(a) == Some(i)
}

/// Notes a witness: a member before i of the closure of a with attribute i that a lacks, and that the intents below lack for long (`lasting_member`).
pub fn note<const W: usize>(
    rows: &RowsOf<W>,
    a: &Bits<W>,
    i: u32,
    closed: &Bits<W>,
    from: u32,
    supports: &[u32],
    witnesses: &mut Vec<u32>,
)
    requires closed { closed.now ≡ closure rows.now (slice_set a.now i true) }
    requires witnesses { AreWitnesses rows.now a.now witnesses.old.items }
    ensures { AreWitnesses rows.now a.now witnesses.new.items }
{
    if let Some(member) = lasting_member(closed, a, i, from, supports) {
        put(witnesses, i, member);
    }
}

/// Puts a witness for attribute i in the place of the one before.
fn put(witnesses: &mut Vec<u32>, i: u32, member: u32)
    ensures { witnesses.new.items ≡ slice_set witnesses.old.items i member }
{
    if let Some(kept) = witnesses.get_mut(i as usize) {
        *kept = member;
    }
}

/// No witnesses.
pub(crate) fn no_witnesses<const W: usize>(alloc: Global, rows: &RowsOf<W>, a: &Bits<W>) -> Vec<u32>
    ensures { AreWitnesses rows.now a.now result.items }
{
    Vec::new(alloc)
}

/// The witnesses for a, which are witnesses for a larger set too.
pub fn pass_witnesses<'a, const W: usize>(
    rows: &RowsOf<W>,
    a: &Bits<W>,
    witnesses: &'a [u32],
    larger: &Bits<W>,
) -> &'a [u32]
    requires witnesses { AreWitnesses rows.now a.now witnesses.now }
    requires larger { within a.now larger.now ≡ true }
    requires wide { length larger.now ≡ rows.now.width }
    ensures { AreWitnesses rows.now larger.now result.now }
{
    witnesses
}

/// Copies the witnesses for a, which are witnesses for a larger set too, among the rows that contain it.
pub(crate) fn copy_witnesses<const W: usize>(
    alloc: Global,
    rows: &RowsOf<W>,
    a: &Bits<W>,
    witnesses: &[u32],
    above: &RowsOf<W>,
    larger: &Bits<W>,
) -> Result<Vec<u32>, Memory>
    requires witnesses { AreWitnesses rows.now a.now witnesses.now }
    requires larger { within a.now larger.now ≡ true }
    requires wide { length larger.now ≡ rows.now.width }
    requires above { above.now ≡ record { width = rows.now.width; rows = filter (within larger.now) rows.now.rows } }
    ensures { IfOk result (λ copy. AreWitnesses above.now larger.now copy.items) }
{
    Ok(Vec::from_slice(alloc, witnesses)?)
}
