//! The walk through the tree. Below a set of the family are, for each later attribute that it lacks, the sets that agree with it before that attribute and
//! have it. Found members that wait for an attribute outside a set still do so after all below it was visited.

ghost use Rattle.std.specs.Prelude.{◌≡◌, ◌<◌, ◌≤◌, ◌+◌, true, false, List, OnOk, IfOk, IfSome, MatchOption, length, slice_index_or};
ghost use Rattle.std.specs.Prelude.{slice_set};
ghost use Rattle.fca_model.specs.Sets.{within};
ghost use Rattle.fca_model.specs.Context.{closure};
ghost use Rattle.fca_model.specs.Implications.{Rule};
ghost use Rattle.extent_blocks.specs.Blocks.{IsExtent, IsExtentWith};
ghost use Rattle.lectic_basis.specs.Forced.{AreForced, IsLastToTry, IsLonger, NoneToTry, is_to_try};
ghost use Rattle.lectic_basis.specs.Watches.{Watched, IsBounded};
ghost use Rattle.lectic_basis.specs.Walks.{IsVisit, IsBelow, IsTrying, HasFound, IsPart, IsPartBefore};
ghost use Rattle.lectic_basis.specs.Steps.{IsStep, IsBegun, HasTried};

use crate::closing::{agrees, close};
use crate::watched_list::WatchedList;
use attr_bits::Bits;
use extent_blocks::{BlockExtent, IndexedRows};
use fca_model::{Implication, Memory};
use implication_closure::ImplicationList;
use lectic_concepts::lasting_member;
use std::alloc::Global;

/// What goes down the tree with an intent: the places of the rows that contain it, and what attributes force. Later steps use the lists of a step again.
#[derive(Drop)]
pub(crate) struct StepLists {
    pub(crate) extent: BlockExtent,
    pub(crate) forced: Vec<u32>,
}

/// An intent below which more may be. The walk has tried all attributes from `end` on, and tries none before `from`.
#[derive(Drop)]
pub(crate) struct Step<const W: usize> {
    pub(crate) intent: Bits<W>,
    pub(crate) from: u32,
    pub(crate) end: u32,
    pub(crate) lists: StepLists,
}

/// Visits a, and then all that agree with it before attribute `from`.
pub(crate) fn visit_all<const W: usize>(
    alloc: Global,
    indexed: &IndexedRows<W>,
    known: &ImplicationList,
    found: &mut WatchedList<W>,
    a: &Bits<W>,
    from: u32,
) -> Result<(), Memory>
    requires { IsVisit known.now.members indexed.now a.now from found.old }
    ensures { OnOk result (HasFound known.now.members indexed.now a.now from (IsPartBefore a.now from) found.old found.new) }
{
    let _width = found.width();
    let closed = indexed.rows().closure(a);
    match visit(indexed, known, found, a, &closed, from)? {
        None => Ok(()),
        Some(intent) => {
            let first = first_step(alloc, indexed, found, &intent, from)?;
            visit_below(alloc, indexed, known, found, first)
        }
    }
}

/// Visits all that agree with the intent of the step before its first attribute and come behind it. The steps that are not done wait in a list, so a deep tree
/// takes no more stack than a shallow one.
fn visit_below<const W: usize>(
    alloc: Global,
    indexed: &IndexedRows<W>,
    known: &ImplicationList,
    found: &mut WatchedList<W>,
    first: Step<W>,
) -> Result<(), Memory>
    requires { IsStep known.now.members indexed.now first found.old found.old }
    ensures { OnOk result (HasFound known.now.members indexed.now first.entry.intent first.entry.from (IsPart first.entry.intent) found.old found.new) }
{
    let _width = indexed.rows().width();
    let mut spare = Vec::new(alloc);
    let mut steps = vec![in alloc; first]?;
    while let Some(mut step) = steps.pop() {
        let Some(i) = last_to_try(&step.intent, &step.lists.forced, step.from, step.end) else {
            spare.push(step.lists)?;
            continue;
        };
        let below = try_attribute(alloc, indexed, known, found, &mut step, i, &mut spare)?;
        steps.push(step)?;
        let Some(below) = below else {
            continue;
        };
        steps.push(below)?;
    }
    Ok(())
}

/// Tries attribute i at the step. Returns the step below that comes of it, if there may be more there.
fn try_attribute<const W: usize>(
    alloc: Global,
    indexed: &IndexedRows<W>,
    known: &ImplicationList,
    found: &mut WatchedList<W>,
    step: &mut Step<W>,
    i: u32,
    spare: &mut Vec<StepLists>,
) -> Result<Option<Step<W>>, Memory>
    requires trying { IsTrying known.now.members indexed.now step.old.intent i found.old }
    requires lacks { slice_index_or step.old.intent i false ≡ false }
    requires extent { IsExtent indexed.now step.old.intent step.old.lists.extent }
    requires forced { AreForced found.old.list.members step.old.intent step.old.lists.forced.items }
    ensures { IfOk result (λ below. HasTried known.now.members indexed.now i found.old found.new step.old step.new below) }
{
    let _width = found.width();
    step.end = i;
    let child = visit_child_at(
        indexed,
        known,
        found,
        &step.intent,
        i,
        &mut step.lists,
        step.from,
    )?;
    match child {
        None => Ok(None),
        Some(intent) => step_below(alloc, indexed, &intent, i, &step.lists, spare),
    }
}

/// The step at the intent a, which comes of attribute i and the lists of the parent. None if no later attribute is to be tried: then no row is looked for.
fn step_below<const W: usize>(
    alloc: Global,
    indexed: &IndexedRows<W>,
    a: &Bits<W>,
    i: u32,
    parent: &StepLists,
    spare: &mut Vec<StepLists>,
) -> Result<Option<Step<W>>, Memory>
    requires inside { i < indexed.now.width }
    requires wide { length a.now ≡ indexed.now.width }
    requires extent { IsExtentWith indexed.now a.now i parent.now.extent }
    ensures { IfOk result (λ step. MatchOption step
        (NoneToTry a.now parent.now.forced.items (i + 1) indexed.now.width)
        (IsBegun indexed.now a.now (i + 1) parent.now.forced.items)) }
{
    let width = indexed.rows().width();
    let Some(last) = last_to_try(a, &parent.forced, i + 1, width) else {
        return Ok(None);
    };
    let mut lists = take_spare(alloc, spare);
    fill(&mut lists, indexed, a, i, parent)?;
    Ok(Some(Step {
        intent: *a,
        from: i + 1,
        end: last + 1,
        lists,
    }))
}

/// The last of these attributes that is to be tried below a.
fn last_to_try<const W: usize>(a: &Bits<W>, forced: &[u32], from: u32, end: u32) -> Option<u32>
    requires order { from ≤ end }
    requires inside { end ≤ length a.now }
    ensures { MatchOption result (NoneToTry a.now forced.now from end) (IsLastToTry a.now forced.now from end) }
{
    for i in (from..end).rev() {
        if is_to_try(a, forced, i) {
            return Some(i);
        }
    }
    None
}

/// Whether attribute i is tried below a: a lacks it, and it is not seen to force one before it that a lacks.
fn is_to_try<const W: usize>(a: &Bits<W>, forced: &[u32], i: u32) -> bool
    requires { i < length a.now }
    ensures { result ≡ is_to_try a.now forced.now i }
{
    if a.has(i) {
        return false;
    }
    let attribute = forced.get(i as usize).copied().unwrap_or(i);
    i <= attribute || a.has(attribute)
}

/// Visits the least set of the family that contains a and attribute i, which a lacks, if the set agrees with a before i. If more is left there, it is behind the
/// returned intent. The sets below a agree with it before attribute `from`. Where the set does not agree, or its closure does not, what attribute i forces is noted.
fn visit_child_at<const W: usize>(
    indexed: &IndexedRows<W>,
    known: &ImplicationList,
    found: &mut WatchedList<W>,
    a: &Bits<W>,
    i: u32,
    lists: &mut StepLists,
    from: u32,
) -> Result<Option<Bits<W>>, Memory>
    requires trying { IsTrying known.now.members indexed.now a.now i found.old }
    requires lacks { slice_index_or a.now i false ≡ false }
    requires extent { IsExtent indexed.now a.now lists.old.extent }
    requires forced { AreForced found.old.list.members a.now lists.old.forced.items }
    ensures below { IfOk result (λ child. IfSome child (λ b. IsBelow known.now.members indexed.now b (i + 1) found.new)) }
    ensures same { lists.new.extent ≡ lists.old.extent }
    ensures extent { IfOk result (λ child. IfSome child (λ b. IsExtentWith indexed.now b i lists.new.extent)) }
    ensures done { IfOk result (λ child. MatchOption child
        (HasFound known.now.members indexed.now a.now i (IsPart a.now) found.old found.new)
        (λ b. (new : Watched) → HasFound known.now.members indexed.now b (i + 1) (IsPart b) found.new new → HasFound known.now.members indexed.now a.now i (IsPart a.now) found.old new)) }
    ensures kept { OnOk result (AreForced found.new.list.members a.now lists.new.forced.items) }
    ensures passed { IfOk result (λ child. IfSome child (λ b. AreForced found.new.list.members b lists.new.forced.items)) }
{
    let _width = found.width();
    let mut reached = a.with(i);
    if !close(found, a, &mut reached, i)? {
        let supports = indexed.supports();
        note(&mut lists.forced, a, i, &reached, from, supports);
        return Ok(None);
    }
    let closed = lists.extent.closure_among(indexed, i, &reached);
    let child = visit(indexed, known, found, &reached, &closed, i + 1)?;
    match child {
        None => {
            let supports = indexed.supports();
            note(&mut lists.forced, a, i, &closed, from, supports);
            Ok(None)
        }
        Some(intent) => Ok(Some(intent)),
    }
}

/// Visits a alone, whose closure is given. If more is left that agrees with a before attribute `from`, it is behind the returned intent. That is a itself, or its
/// closure, and then a is the premise of a member.
fn visit<const W: usize>(
    indexed: &IndexedRows<W>,
    known: &ImplicationList,
    found: &mut WatchedList<W>,
    a: &Bits<W>,
    closed: &Bits<W>,
    from: u32,
) -> Result<Option<Bits<W>>, Memory>
    requires visit { IsVisit known.now.members indexed.now a.now from found.old }
    requires closed { closed.now ≡ closure indexed.now a.now }
    ensures below { IfOk result (λ intent. IfSome intent (λ b. IsBelow known.now.members indexed.now b from found.new)) }
    ensures done { IfOk result (λ intent. MatchOption intent
        (HasFound known.now.members indexed.now a.now from (IsPartBefore a.now from) found.old found.new)
        (λ b. (new : Watched) → HasFound known.now.members indexed.now b from (IsPart b) found.new new → HasFound known.now.members indexed.now a.now from (IsPartBefore a.now from) found.old new)) }
    ensures larger { IfOk result (λ intent. IfSome intent (λ b. within a.now b ≡ true)) }
    ensures shared { IfOk result (λ intent. IfSome intent (λ b. within b (closure indexed.now a.now) ≡ true)) }
    ensures more { OnOk result (IsLonger found.old.list.members found.new.list.members) }
    ensures bounded { OnOk result (IsBounded found.new.list.members a.now closed.now) }
{
    let _width = found.width();
    if *closed == *a {
        return Ok(Some(*a));
    }
    let member = Implication {
        premise: *a,
        conclusion: *closed,
    };
    found.push_to_wait(member, from)?;
    if !agrees(a, closed, from) {
        return Ok(None);
    }
    // (the closure is at hand: this has the members that wait for one of its attributes wait for another)
    let mut grown = *closed;
    close(found, a, &mut grown, from)?;
    Ok(Some(*closed))
}

/// The step at the first intent.
fn first_step<const W: usize>(
    alloc: Global,
    indexed: &IndexedRows<W>,
    found: &WatchedList<W>,
    a: &Bits<W>,
    from: u32,
) -> Result<Step<W>, Memory>
    ensures intent { IfOk result (λ step. step.intent ≡ a.now) }
    ensures from { IfOk result (λ step. step.from ≡ from) }
    ensures end { IfOk result (λ step. step.end ≡ indexed.now.width) }
    ensures extent { IfOk result (λ step. IsExtent indexed.now a.now step.lists.extent) }
    ensures forced { IfOk result (λ step. AreForced found.now.list.members a.now step.lists.forced.items) }
{
    let end = indexed.rows().width();
    let extent = BlockExtent::of(alloc, indexed, a)?;
    let forced = initial_forces(alloc, found, a)?;
    Ok(Step {
        intent: *a,
        from,
        end,
        lists: StepLists { extent, forced },
    })
}

/// Lists that were used before, or new ones.
fn take_spare(alloc: Global, spare: &mut Vec<StepLists>) -> StepLists {
    match spare.pop() {
        Some(lists) => lists,
        None => StepLists {
            extent: BlockExtent::new(alloc),
            forced: Vec::new(alloc),
        },
    }
}

/// Fills the lists for the child a: the places of the rows that contain it, which are those of the parent that have attribute i, and what attributes force.
fn fill<const W: usize>(
    lists: &mut StepLists,
    indexed: &IndexedRows<W>,
    a: &Bits<W>,
    i: u32,
    parent: &StepLists,
) -> Result<(), Memory>
    requires inside { i < indexed.now.width }
    requires extent { IsExtentWith indexed.now a.now i parent.now.extent }
    ensures extent { OnOk result (IsExtent indexed.now a.now lists.new.extent) }
    ensures forced { OnOk result (lists.new.forced.items ≡ parent.now.forced.items) }
{
    lists.extent.set_having(&parent.extent, indexed, i)?;
    lists.forced.clear();
    lists.forced.extend_from_slice(&parent.forced)?;
    Ok(())
}

/// What attributes force at first: each forces itself.
fn initial_forces<const W: usize>(
    alloc: Global,
    found: &WatchedList<W>,
    a: &Bits<W>,
) -> Result<Vec<u32>, Memory>
    ensures { IfOk result (λ forced. AreForced found.now.list.members a.now forced.items) }
{
    let mut forced = Vec::new(alloc);
    for i in 0..found.width() {
        forced.push(i)?;
    }
    Ok(forced)
}

/// Notes that attribute i forces an attribute before it that the larger set has and a lacks, and that the sets below a lack for long (`lasting_member`).
fn note<const W: usize>(
    forced: &mut Vec<u32>,
    a: &Bits<W>,
    i: u32,
    larger: &Bits<W>,
    from: u32,
    supports: &[u32],
)
    ensures { (J : List Rule) → IsBounded J (slice_set a.now i true) larger.now → AreForced J a.now forced.old.items → AreForced J a.now forced.new.items }
{
    if let Some(lasting) = lasting_member(larger, a, i, from, supports) {
        put(forced, i, lasting);
    }
}

/// Puts the attribute in the place of what stood there.
fn put(forced: &mut Vec<u32>, i: u32, attribute: u32)
    ensures { forced.new.items ≡ slice_set forced.old.items i attribute }
{
    if let Some(kept) = forced.get_mut(i as usize) {
        *kept = attribute;
    }
}
