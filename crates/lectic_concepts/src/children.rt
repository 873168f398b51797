//! The steps of the way down the tree that are not done, each at an intent with the rows that contain it. Only these rows matter below the intent.

ghost use Rattle.std.specs.Prelude.{◌≡◌, ◌≤◌, ◌<◌, ◌+◌, ◌++◌, ℕ, true, IfOk, IfSome, MatchOption, filter, length};
ghost use Rattle.fca_model.specs.Sets.{within};
ghost use Rattle.fca_model.specs.Context.{is_closed};
ghost use Rattle.lectic_concepts.specs.Branches.{branch, AreWitnesses};
ghost use Rattle.lectic_concepts.specs.Steps.{IsStep, IsBegun, IsLastChild};

use crate::failures::{copy_witnesses, is_child, is_to_try, note};
use attr_bits::Bits;
use derivation::RowsOf;
use fca_model::Memory;
use std::alloc::Global;

/// An intent whose children are looked for, the last first.
#[derive(Drop)]
pub(crate) struct Step<const W: usize> {
    /// The rows that contain the intent.
    pub(crate) rows: RowsOf<W>,
    /// The intent.
    pub(crate) intent: Bits<W>,
    /// For each attribute a witness: a member of the closure of the intent with it.
    pub(crate) witnesses: Vec<u32>,
    /// No child is looked for from an attribute before this one.
    pub(crate) from: u32,
    /// All attributes from this one on were tried.
    pub(crate) end: u32,
}

/// An intent with the attribute that it comes from in the tree.
#[derive(Drop)]
pub(crate) struct Child<const W: usize> {
    /// The intent.
    pub(crate) intent: Bits<W>,
    /// The attribute, from 0.
    pub(crate) attribute: u32,
}

/// What came of the look for the next child of a step.
#[derive(Drop)]
pub(crate) enum Descent<const W: usize> {
    /// No child is left.
    End,
    /// There was one, and it was listed with all intents below it.
    WholeBranch,
    /// There was one, and it was listed alone. This step has those below it.
    Below(Step<W>),
}

/// The last child of a from the attributes that lie from one on and before another.
pub(crate) fn last_child<const W: usize>(
    rows: &RowsOf<W>,
    a: &Bits<W>,
    from: u32,
    end: u32,
    supports: &[u32],
    witnesses: &mut Vec<u32>,
) -> Option<Child<W>>
    requires wide { length a.now ≡ rows.now.width }
    requires closed { is_closed rows.now a.now ≡ true }
    requires order { from ≤ end }
    requires inside { end ≤ rows.now.width }
    requires witnesses { AreWitnesses rows.now a.now witnesses.old.items }
    ensures child { MatchOption result (branch rows.now a.now from ≡ branch rows.now a.now end) (IsLastChild rows.now a.now from end) }
    ensures witnesses { AreWitnesses rows.now a.now witnesses.new.items }
{
    let _width = rows.width();
    for i in (from..end).rev() {
        if let Some(intent) = child_at(rows, a, i, from, supports, witnesses) {
            return Some(Child {
                intent,
                attribute: i,
            });
        }
    }
    None
}

/// The least intent that contains a and attribute i, if a lacks i and the intent agrees with a before it. No child of a is looked for before attribute `from`.
pub(crate) fn child_at<const W: usize>(
    rows: &RowsOf<W>,
    a: &Bits<W>,
    i: u32,
    from: u32,
    supports: &[u32],
    witnesses: &mut Vec<u32>,
) -> Option<Bits<W>>
    requires wide { length a.now ≡ rows.now.width }
    requires closed { is_closed rows.now a.now ≡ true }
    requires inside { i < rows.now.width }
    requires witnesses { AreWitnesses rows.now a.now witnesses.old.items }
    ensures wide { IfSome result (λ D. length D ≡ rows.now.width) }
    ensures closed { IfSome result (λ D. is_closed rows.now D ≡ true) }
    ensures larger { IfSome result (λ D. within a.now D ≡ true) }
    ensures splits { MatchOption result
        (branch rows.now a.now i ≡ branch rows.now a.now (i + 1))
        (λ D. branch rows.now a.now i ≡ branch rows.now a.now (i + 1) ++ branch rows.now D (i + 1)) }
    ensures witnesses { AreWitnesses rows.now a.now witnesses.new.items }
{
    if !is_to_try(rows, a, i, witnesses) {
        return None;
    }
    let closed = rows.closure(&a.with(i));
    if is_child(rows, a, i, &closed) {
        return Some(closed);
    }
    note(rows, a, i, &closed, from, supports, witnesses);
    None
}

/// The step at the child, for the attributes behind the one that it comes from. The rows that contain the child are set apart, and the
/// witnesses of the intent go down to it.
pub(crate) fn step_below<const W: usize>(
    alloc: Global,
    step: &Step<W>,
    child: &Child<W>,
) -> Result<Step<W>, Memory>
    requires wide { length child.now.intent ≡ step.now.rows.width }
    requires closed { is_closed step.now.rows child.now.intent ≡ true }
    requires larger { within step.now.intent child.now.intent ≡ true }
    requires inside { child.now.attribute < step.now.rows.width }
    requires witnesses { AreWitnesses step.now.rows step.now.intent step.now.witnesses.items }
    ensures { IfOk result (IsBegun step.now.rows child.now.intent (child.now.attribute + 1)) }
{
    let end = step.rows.width();
    let intent = child.intent;
    let rows = rows_above(alloc, &step.rows, &intent)?;
    let witnesses = copy_witnesses(
        alloc,
        &step.rows,
        &step.intent,
        &step.witnesses,
        &rows,
        &intent,
    )?;
    Ok(Step {
        rows,
        intent,
        witnesses,
        from: child.attribute + 1,
        end,
    })
}

/// The rows that contain a, which have the same branch.
fn rows_above<const W: usize>(
    alloc: Global,
    rows: &RowsOf<W>,
    a: &Bits<W>,
) -> Result<RowsOf<W>, Memory>
    requires wide { length a.now ≡ rows.now.width }
    requires closed { is_closed rows.now a.now ≡ true }
    ensures width { IfOk result (λ above. above.width ≡ rows.now.width) }
    ensures closed { IfOk result (λ above. is_closed above a.now ≡ true) }
    ensures branch { IfOk result (λ above. (k : ℕ) → branch above a.now k ≡ branch rows.now a.now k) }
    ensures rows { IfOk result (λ above. above ≡ record { width = rows.now.width; rows = filter (within a.now) rows.now.rows }) }
{
    rows.supersets(alloc, a)
}
