//! All intents, by their tree. An intent is followed by those that contain it and agree with it before an attribute that it lacks, from the last such attribute
//! on.

ghost use Rattle.std.specs.Prelude.{◌≡◌, ◌≤◌, ◌*◌, ◌++◌, true, All, IfOk, OnOk, length};
ghost use Rattle.fca_model.specs.Context.{is_closed};
ghost use Rattle.fca_model.specs.Pseudo.{intents};
ghost use Rattle.lectic_concepts.specs.Branches.{branch};
ghost use Rattle.lectic_concepts.specs.Steps.{IsStep, HasDescended};

use crate::children::{Child, Descent, Step, child_at, last_child, step_below};
use crate::failures::{no_witnesses, own_witnesses};
use crate::lasting::supports_of;
use attr_bits::{Attrs, Bits, WordCount};
use derivation::{Rows, RowsOf};
use fca_model::Memory;
use std::alloc::Global;

/// How many attributes are few: below an intent that lacks no more of those to be tried, it does not pay to set the rows apart.
const FEW: u32 = 3;

/// All intents, each once, in lectic order. They are found in sets as narrow as the table.
pub fn all_intents(alloc: Global, rows: &Rows) -> Result<Vec<Attrs>, Memory>
    ensures { IfOk result (λ all. all.items ≡ intents rows.now) }
{
    match WordCount::of(rows.width()) {
        WordCount::One => narrow_intents::<1>(alloc, rows),
        WordCount::Two => narrow_intents::<2>(alloc, rows),
        WordCount::Four => narrow_intents::<4>(alloc, rows),
        WordCount::Eight => narrow_intents::<8>(alloc, rows),
        WordCount::All => intents_of(alloc, rows),
    }
}

/// All intents, found in sets of W words.
fn narrow_intents<const W: usize>(alloc: Global, rows: &Rows) -> Result<Vec<Attrs>, Memory>
    requires words { W ≤ 1024 }
    requires fits { rows.now.width ≤ 64 * W }
    ensures { IfOk result (λ all. all.items ≡ intents rows.now) }
{
    let width = rows.width();
    let narrow = rows.resize::<W>(alloc)?;
    let found = intents_of(alloc, &narrow)?;
    resize_sets(alloc, width, &found)
}

/// Copies the sets into sets of another number of words.
pub fn resize_sets<const W: usize, const V: usize>(
    alloc: Global,
    width: u32,
    sets: &[Bits<W>],
) -> Result<Vec<Bits<V>>, Memory>
    requires words { V ≤ 1024 }
    requires fits { width ≤ 64 * V }
    requires even { All (λ A. length A ≡ width) sets.now }
    ensures { IfOk result (λ all. all.items ≡ sets.now) }
{
    let mut all = Vec::with_capacity(alloc, sets.len())?;
    for set in sets {
        all.push(set.resize())?;
    }
    Ok(all)
}

/// All intents, as sets of as many words as the rows have.
pub fn intents_of<const W: usize>(alloc: Global, rows: &RowsOf<W>) -> Result<Vec<Bits<W>>, Memory>
    ensures intents { IfOk result (λ all. all.items ≡ intents rows.now) }
    ensures even { IfOk result (λ all. All (λ A. length A ≡ rows.now.width) all.items) }
{
    let width = rows.width();
    let least = rows.closure(&Bits::empty(width));
    let witnesses = own_witnesses(alloc, rows, &least)?;
    let first = Step {
        rows: rows.copy()?,
        intent: least,
        witnesses,
        from: 0,
        end: width,
    };
    let mut all = Vec::new(alloc);
    let supports = supports_of(alloc, rows)?;
    add_branch(alloc, &mut all, first, &supports)?;
    Ok(all)
}

/// Puts the intent of the step last, and behind it all that contain it and agree with it before the attributes of the step. Steps that are not done wait in a
/// list, so a deep tree takes no more stack than a flat one.
fn add_branch<const W: usize>(
    alloc: Global,
    all: &mut Vec<Bits<W>>,
    first: Step<W>,
    supports: &[u32],
) -> Result<(), Memory>
    requires step { IsStep first.rows.width first }
    requires whole { first.end ≡ first.rows.width }
    ensures { OnOk result (all.new.items ≡ all.old.items ++ branch first.entry.rows first.entry.intent first.entry.from) }
{
    all.push(first.intent)?;
    let mut steps = Vec::with_capacity(alloc, first.rows.width() as usize)?;
    steps.push(first)?;
    while let Some(mut step) = steps.pop() {
        match next_step(alloc, all, &mut step, supports)? {
            Descent::End => {}
            Descent::WholeBranch => steps.push(step)?,
            Descent::Below(below) => {
                steps.push(step)?;
                steps.push(below)?;
            }
        }
    }
    Ok(())
}

/// Puts the next child of the step last. If the child lacks few attributes, all intents below it follow at once; if it lacks more, its step is given back.
fn next_step<const W: usize>(
    alloc: Global,
    all: &mut Vec<Bits<W>>,
    step: &mut Step<W>,
    supports: &[u32],
) -> Result<Descent<W>, Memory>
    requires { IsStep step.old.rows.width step.old }
    ensures { IfOk result (λ descent. HasDescended step.old.rows.width all.old.items all.new.items step.old step.new descent) }
{
    let _width = step.rows.width();
    let Some(child) = last_child(
        &step.rows,
        &step.intent,
        step.from,
        step.end,
        supports,
        &mut step.witnesses,
    ) else {
        return Ok(Descent::End);
    };
    step.end = child.attribute;
    let from = child.attribute + 1;
    if lacks_few(&child.intent, from) {
        add_few(alloc, all, &step.rows, &child.intent, from, supports)?;
        return Ok(Descent::WholeBranch);
    }
    all.push(child.intent)?;
    let below = step_below(alloc, step, &child)?;
    Ok(Descent::Below(below))
}

/// Puts the intents that contain a and agree with it before attribute `from` last. It calls itself at most as often as a lacks attributes from there on, and
/// it is called where these are few.
fn add_few<const W: usize>(
    alloc: Global,
    all: &mut Vec<Bits<W>>,
    rows: &RowsOf<W>,
    a: &Bits<W>,
    from: u32,
    supports: &[u32],
) -> Result<(), Memory>
    requires wide { length a.now ≡ rows.now.width }
    requires closed { is_closed rows.now a.now ≡ true }
    requires inside { from ≤ rows.now.width }
    ensures { OnOk result (all.new.items ≡ all.old.items ++ branch rows.now a.now from) }
{
    all.push(*a)?;
    let mut witnesses = no_witnesses(alloc, rows, a);
    for i in (from..rows.width()).rev() {
        if let Some(child) = child_at(rows, a, i, from, supports, &mut witnesses) {
            add_few(alloc, all, rows, &child, i + 1, supports)?;
        }
    }
    Ok(())
}

/// Whether a lacks few attributes from that one on. What is found is the same either way, so no contract speaks of it.
fn lacks_few<const W: usize>(a: &Bits<W>, from: u32) -> bool {
    let mut lacking = 0u32;
    for i in from..a.width() {
        if !a.has(i) {
            lacking = lacking.saturating_add(1);
        }
    }
    lacking <= FEW
}
