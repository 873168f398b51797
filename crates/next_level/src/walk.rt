//! The walk through the sets that respect a list, in lectic order. It enters no set that is larger than the bound. If the open sets are known to be among
//! some, it enters no branch that has none of these.

ghost use Rattle.std.specs.Prelude.{◌≡◌, ◌≤◌, ◌<◌, ◌+◌, ℕ, List, OnOk, IfOk, IfSome, MatchOption, length, slice_index_or, slice_set, true};
ghost use Rattle.std.specs.Prelude.{false};
ghost use Rattle.fca_model.specs.Sets.{size, within, agree_before};
ghost use Rattle.fca_model.specs.Context.{closure};
ghost use Rattle.fca_model.specs.Implications.{Rule};
ghost use Rattle.extent_blocks.specs.Blocks.{IsExtent};
ghost use Rattle.lectic_basis.specs.Watches.{Watched};
ghost use Rattle.next_level.specs.Among.{AreAmong};
ghost use Rattle.next_level.specs.LevelWalks.{IsVisit, IsBelow, IsTrying, HasListed, IsSteady};
ghost use Rattle.next_level.specs.Steps.{IsBegun, IsLowerChild, IsChild, IsStep};

use crate::open_sets::OpenSets;
use crate::shortlist::Shortlist;
use attr_bits::Bits;
use extent_blocks::{BlockExtent, IndexedRows};
use fca_model::{Implication, Memory};
use lectic_basis::{WatchedList, close};
use std::alloc::Global;

/// A set below which open ones may be, the rows that contain it, and sets among which the open ones are. The walk has tried all attributes from `end` on, and
/// tries none before `from`.
#[derive(Drop)]
pub(crate) struct Step<const W: usize> {
    pub(crate) set: Bits<W>,
    pub(crate) from: u32,
    pub(crate) end: u32,
    pub(crate) extent: BlockExtent,
    pub(crate) among: Shortlist<W>,
}

/// A set that the walk has entered below another, by the attribute that was tried.
#[derive(Drop)]
pub(crate) struct Child<const W: usize> {
    pub(crate) set: Bits<W>,
    pub(crate) attribute: u32,
}

/// Visits a, and then all that agree with it before attribute `from`.
pub(crate) fn visit_all<const W: usize>(
    alloc: Global,
    indexed: &IndexedRows<W>,
    rules: &mut WatchedList<W>,
    seen: &mut OpenSets<W>,
    a: &Bits<W>,
    from: u32,
    among: Shortlist<W>,
) -> Result<(), Memory>
    requires visit { IsVisit indexed.now a.now from rules.old seen.old.bound seen.old.members.items }
    requires small { size a.now ≤ seen.old.bound }
    requires among { AreAmong rules.old.list.members indexed.now a.now from among.whole among.sets.items }
    ensures listed { OnOk result (HasListed indexed.now a.now from rules.old rules.new seen.new.bound seen.new.members.items) }
    ensures steady { OnOk result (IsSteady seen.old.bound seen.old.members.items seen.new.bound seen.new.members.items) }
{
    let _width = rules.width();
    let closed = indexed.rows().closure(a);
    if visit(alloc, indexed, rules, seen, a, &closed, from)? {
        let extent = BlockExtent::of(alloc, indexed, a)?;
        let first = Step {
            set: *a,
            from,
            end: rules.width(),
            extent,
            among,
        };
        return visit_below(alloc, indexed, rules, seen, first);
    }
    Ok(())
}

/// Visits all that agree with the set of the step before its first attribute and come behind it. The steps that are not done wait in a list, so a deep walk
/// takes no more stack than a shallow one.
fn visit_below<const W: usize>(
    alloc: Global,
    indexed: &IndexedRows<W>,
    rules: &mut WatchedList<W>,
    seen: &mut OpenSets<W>,
    first: Step<W>,
) -> Result<(), Memory>
    requires { IsStep indexed.now first rules.old rules.old seen.old.bound seen.old.members.items }
    ensures listed { OnOk result (HasListed indexed.now first.entry.set first.entry.from rules.old rules.new seen.new.bound seen.new.members.items) }
    ensures steady { OnOk result (IsSteady seen.old.bound seen.old.members.items seen.new.bound seen.new.members.items) }
{
    let _width = rules.width();
    let mut steps = vec![in alloc; first]?;
    while let Some(mut step) = steps.pop() {
        let child = next_child(alloc, indexed, rules, seen, &step)?;
        let Some(child) = child else {
            continue;
        };
        let below = step_below(alloc, indexed, rules, &step, &child)?;
        step.end = child.attribute;
        steps.push(step)?;
        steps.push(below)?;
    }
    Ok(())
}

/// Tries the attributes that are left at the step, the last first, until a set is entered below which open ones may be.
fn next_child<const W: usize>(
    alloc: Global,
    indexed: &IndexedRows<W>,
    rules: &mut WatchedList<W>,
    seen: &mut OpenSets<W>,
    step: &Step<W>,
) -> Result<Option<Child<W>>, Memory>
    requires { IsStep indexed.now step.now rules.old rules.old seen.old.bound seen.old.members.items }
    ensures child { IfOk result (λ child. MatchOption child
        (HasListed indexed.now step.now.set step.now.from rules.old rules.new seen.new.bound seen.new.members.items)
        (IsChild indexed.now step.now rules.old rules.new seen.new.bound seen.new.members.items)) }
    ensures below { IfOk result (λ child. IfSome child (IsLowerChild step.now)) }
    ensures steady { OnOk result (IsSteady seen.old.bound seen.old.members.items seen.new.bound seen.new.members.items) }
{
    let _width = rules.width();
    for i in (step.from..step.end).rev() {
        if let Some(set) = child_at(alloc, indexed, rules, seen, step, i)? {
            return Ok(Some(Child { set, attribute: i }));
        }
    }
    Ok(None)
}

/// The step at the child, before any attribute is tried there.
fn step_below<const W: usize>(
    alloc: Global,
    indexed: &IndexedRows<W>,
    rules: &WatchedList<W>,
    step: &Step<W>,
    child: &Child<W>,
) -> Result<Step<W>, Memory>
    requires wide { length step.now.set ≡ indexed.now.width }
    requires inside { child.now.attribute < indexed.now.width }
    requires below { IsLowerChild step.now child.now }
    requires extent { IsExtent indexed.now step.now.set step.now.extent }
    requires among { AreAmong rules.now.list.members indexed.now step.now.set step.now.from step.now.among.whole step.now.among.sets.items }
    ensures { IfOk result (IsBegun indexed.now rules.now child.now) }
{
    let _width = rules.width();
    let i = child.attribute;
    let among = child_among(alloc, indexed, rules, &step.set, i, &step.among, &child.set)?;
    let extent = extent_below(alloc, indexed, &step.extent, &step.set, i, &child.set)?;
    Ok(Step {
        set: child.set,
        from: i + 1,
        end: indexed.rows().width(),
        extent,
        among,
    })
}

/// Enters the least set that contains the set of the step and attribute i and respects the list. It is given if more may be behind it. Nothing is entered if the
/// step has i, if the larger set does not agree with the step before i, or if no open set may be there.
fn child_at<const W: usize>(
    alloc: Global,
    indexed: &IndexedRows<W>,
    rules: &mut WatchedList<W>,
    seen: &mut OpenSets<W>,
    step: &Step<W>,
    i: u32,
) -> Result<Option<Bits<W>>, Memory>
    requires trying { IsTrying indexed.now step.now.set i rules.old seen.old.bound seen.old.members.items }
    requires among { AreAmong rules.old.list.members indexed.now step.now.set i step.now.among.whole step.now.among.sets.items }
    requires extent { IsExtent indexed.now step.now.set step.now.extent }
    ensures left { IfOk result (λ child. IfSome child (λ b. IsBelow indexed.now b (i + 1) rules.new seen.new.bound seen.new.members.items)) }
    ensures larger { IfOk result (λ child. IfSome child (λ b. within (slice_set step.now.set i true) b ≡ true)) }
    ensures agree { IfOk result (λ child. IfSome child (λ b. agree_before i step.now.set b ≡ true)) }
    ensures lacks { IfOk result (λ child. IfSome child (λ b. slice_index_or step.now.set i false ≡ false)) }
    ensures list { OnOk result (rules.new.list ≡ rules.old.list) }
    ensures done { IfOk result (λ child. MatchOption child
        (HasListed indexed.now step.now.set i rules.old rules.new seen.new.bound seen.new.members.items)
        (λ b. (new : Watched) (size : ℕ) (members : List Rule) → HasListed indexed.now b (i + 1) rules.new new size members
        → HasListed indexed.now step.now.set i rules.old new size members)) }
    ensures steady { OnOk result (IsSteady seen.old.bound seen.old.members.items seen.new.bound seen.new.members.items) }
{
    let _width = rules.width();
    let a = &step.set;
    if a.has(i) {
        return Ok(None);
    }
    if step.among.skips(a, i) {
        return Ok(None);
    }
    let mut reached = a.with(i);
    if !close(rules, a, &mut reached, i)? {
        return Ok(None);
    }
    if reached.size() > seen.bound {
        return Ok(None);
    }
    let closed = closure_by_extent(indexed, &step.extent, a, i, &reached);
    if visit(alloc, indexed, rules, seen, &reached, &closed, i + 1)? {
        return Ok(Some(reached));
    }
    Ok(None)
}

/// The candidates that agree with the child before attribute i + 1.
pub(crate) fn child_among<const W: usize>(
    alloc: Global,
    indexed: &IndexedRows<W>,
    rules: &WatchedList<W>,
    a: &Bits<W>,
    i: u32,
    among: &Shortlist<W>,
    child: &Bits<W>,
) -> Result<Shortlist<W>, Memory>
    requires inside { i < indexed.now.width }
    requires wide { length a.now ≡ indexed.now.width }
    requires among { AreAmong rules.now.list.members indexed.now a.now i among.now.whole among.now.sets.items }
    requires lacks { slice_index_or a.now i false ≡ false }
    requires larger { within (slice_set a.now i true) child.now ≡ true }
    requires agree { agree_before i a.now child.now ≡ true }
    ensures { IfOk result (λ part. AreAmong rules.now.list.members indexed.now child.now (i + 1) part.whole part.sets.items) }
{
    let _width = rules.width();
    let part = among.branch(alloc, a, i)?;
    Ok(part)
}

/// Visits a alone, whose closure is given. Whether open sets within the bound may agree with it before attribute `from` and come behind it.
fn visit<const W: usize>(
    alloc: Global,
    indexed: &IndexedRows<W>,
    rules: &WatchedList<W>,
    seen: &mut OpenSets<W>,
    a: &Bits<W>,
    closed: &Bits<W>,
    from: u32,
) -> Result<bool, Memory>
    requires visit { IsVisit indexed.now a.now from rules.now seen.old.bound seen.old.members.items }
    requires small { size a.now ≤ seen.old.bound }
    requires closed { closed.now ≡ closure indexed.now a.now }
    ensures left { IfOk result (λ left. left ≡ true → IsBelow indexed.now a.now from rules.now seen.new.bound seen.new.members.items) }
    ensures done { IfOk result (λ left. left ≡ false → HasListed indexed.now a.now from rules.now rules.now seen.new.bound seen.new.members.items) }
    ensures steady { OnOk result (IsSteady seen.old.bound seen.old.members.items seen.new.bound seen.new.members.items) }
{
    let _width = rules.width();
    seen.count_visit(alloc)?;
    let count = a.size();
    if count > seen.bound {
        return Ok(false);
    }
    if closed == a {
        return Ok(count < seen.bound);
    }
    seen.fall_to(alloc, count)?;
    seen.members.push(Implication {
        premise: *a,
        conclusion: *closed,
    })?;
    Ok(count < seen.bound)
}

/// The closure of a set that contains a and attribute i, by the rows that contain a.
fn closure_by_extent<const W: usize>(
    indexed: &IndexedRows<W>,
    extent: &BlockExtent,
    a: &Bits<W>,
    i: u32,
    larger: &Bits<W>,
) -> Bits<W>
    requires inside { i < indexed.now.width }
    requires wide { length a.now ≡ indexed.now.width }
    requires extent { IsExtent indexed.now a.now extent.now }
    requires larger { within (slice_set a.now i true) larger.now ≡ true }
    requires larger_wide { length larger.now ≡ indexed.now.width }
    ensures { result ≡ closure indexed.now larger.now }
{
    let _width = indexed.rows().width();
    let tried = a.with(i);
    let shared = extent.closure_among(indexed, i, &tried);
    if larger.within(&shared) {
        return shared;
    }
    indexed.rows().closure(larger)
}

/// The rows that contain a set which contains a and attribute i. If the list holds in the rows, these are the rows of the extent of a that have i.
fn extent_below<const W: usize>(
    alloc: Global,
    indexed: &IndexedRows<W>,
    extent: &BlockExtent,
    a: &Bits<W>,
    i: u32,
    larger: &Bits<W>,
) -> Result<BlockExtent, Memory>
    requires inside { i < indexed.now.width }
    requires wide { length a.now ≡ indexed.now.width }
    requires extent { IsExtent indexed.now a.now extent.now }
    requires larger { within (slice_set a.now i true) larger.now ≡ true }
    ensures { IfOk result (λ below. IsExtent indexed.now larger.now below) }
{
    let _width = indexed.rows().width();
    if is_shared(indexed, extent, a, i, larger) {
        let mut below = BlockExtent::new(alloc);
        below.set_having(extent, indexed, i)?;
        return Ok(below);
    }
    BlockExtent::of(alloc, indexed, larger)
}

/// Whether all rows that contain a and have attribute i contain the larger set. No row is looked at if it has nothing else.
fn is_shared<const W: usize>(
    indexed: &IndexedRows<W>,
    extent: &BlockExtent,
    a: &Bits<W>,
    i: u32,
    larger: &Bits<W>,
) -> bool
    requires inside { i < indexed.now.width }
    requires wide { length a.now ≡ indexed.now.width }
    requires extent { IsExtent indexed.now a.now extent.now }
    ensures { result ≡ true → within larger.now (closure indexed.now (slice_set a.now i true)) ≡ true }
{
    let _width = indexed.rows().width();
    let tried = a.with(i);
    if larger.within(&tried) {
        return true;
    }
    let shared = extent.closure_among(indexed, i, &tried);
    larger.within(&shared)
}
