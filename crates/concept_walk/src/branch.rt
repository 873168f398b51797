//! The concepts of a branch of the tree of intents. The extent goes down the tree, as places in the table.

ghost use Rattle.std.specs.Prelude.{◌≡◌, ◌≤◌, ◌<◌, ◌+◌, ◌++◌, [], true, false, OnOk, IfOk, IfSome, MatchOption, length, take};
ghost use Rattle.std.specs.Prelude.{slice_index_or, slice_set};
ghost use Rattle.fca_model.specs.Sets.{within};
ghost use Rattle.fca_model.specs.Context.{closure, extent, is_closed};
ghost use Rattle.lectic_concepts.specs.Branches.{branch, AreWitnesses};
ghost use Rattle.concept_walk.specs.Nodes.{IsNode, AreCandidates};
ghost use Rattle.concept_walk.specs.Gatherings.{Fills};

use crate::cross_table::CrossTable;
use crate::gathering::Gathering;
use crate::node::{Candidates, Node};
use crate::notes::{begin_notes, known_witnesses};
use crate::steps::{Descent, enter, first_step, next_step, put_back};
use crate::work_lists::{WorkListPool, WorkLists};
use attr_bits::Bits;
use extent_places::{closure_at, last_member};
use fca_model::Memory;
use lectic_concepts::{is_child, is_to_try, note};
use std::alloc::Global;

/// The closure of a node's intent with one attribute more, which may be a child of the node.
#[derive(Drop)]
pub struct LargerIntent<const W: usize> {
    /// The intent.
    pub intent: Bits<W>,
    /// The attribute, from 0.
    pub attribute: u32,
    /// So many of the places found, from the first on, are those of its objects.
    pub count: usize,
}

/// Adds the concepts of the node's branch to the gathering. The extent of a child is found among that of the node above it, whose witnesses are passed
/// down. The objects of a node that has few are set apart. The steps that are not done wait in a list, so a deep tree takes no more stack than another.
pub fn gather_branch<const W: usize>(
    alloc: Global,
    crosses: &CrossTable<'_, W>,
    gathering: &mut Gathering<W>,
    node: &Node<'_, W>,
    pool: &mut WorkListPool<W>,
) -> Result<(), Memory>
    requires { IsNode crosses.now node.now }
    ensures { OnOk result (Fills crosses.now gathering.old gathering.new (branch crosses.now node.now.intent.now node.now.from)) }
{
    let _width = crosses.rows().width();
    let Some(candidates) = enter(alloc, crosses, gathering, node, pool)? else {
        return Ok(());
    };
    let mut steps = Vec::new(alloc);
    steps.push(first_step(alloc, crosses, node, candidates, pool)?)?;
    while let Some(mut step) = steps.pop() {
        match next_step(alloc, crosses, gathering, &mut step, pool)? {
            Descent::End => put_back(step, &mut pool.spare)?,
            Descent::WholeBranch => steps.push(step)?,
            Descent::Below(deeper) => {
                steps.push(step)?;
                steps.push(deeper)?;
            }
        }
    }
    Ok(())
}

/// The last child of the node that comes from a candidate from `from` on. The places of its objects are put into the front of `found`.
pub fn next_child<const W: usize>(
    crosses: &CrossTable<'_, W>,
    node: &Node<'_, W>,
    candidates: &Candidates<W>,
    work_lists: &mut WorkLists,
) -> Result<Option<LargerIntent<W>>, Memory>
    requires node { IsNode crosses.now node.now }
    requires candidates { AreCandidates crosses.now node.now.intent.now candidates.now }
    requires order { node.now.from ≤ candidates.now.end }
    requires noted { AreWitnesses crosses.now node.now.intent.now work_lists.old.noted.items }
    ensures between { IfOk result (λ met. IfSome met (λ child. (node.now.from ≤ child.attribute) × (child.attribute < candidates.now.end))) }
    ensures wide { IfOk result (λ met. IfSome met (λ child. length child.intent ≡ crosses.now.width)) }
    ensures closed { IfOk result (λ met. IfSome met (λ child. is_closed crosses.now child.intent ≡ true)) }
    ensures places { IfOk result (λ met. IfSome met (λ child. take child.count work_lists.new.found.items ≡ extent crosses.now child.intent)) }
    ensures few { IfOk result (λ met. IfSome met (λ child. child.count ≤ length work_lists.new.found.items)) }
    ensures larger { IfOk result (λ met. IfSome met (λ child. within node.now.intent.now child.intent ≡ true)) }
    ensures splits { IfOk result (λ met. MatchOption met
        (branch crosses.now node.now.intent.now node.now.from ≡ branch crosses.now node.now.intent.now candidates.now.end)
        (λ child. branch crosses.now node.now.intent.now child.attribute
        ≡ branch crosses.now node.now.intent.now candidates.now.end ++ branch crosses.now child.intent (child.attribute + 1))) }
    ensures noted { OnOk result (AreWitnesses crosses.now node.now.intent.now work_lists.new.noted.items) }
{
    let rows = crosses.rows();
    let a = node.intent;
    let mut place = candidates.end;
    while let Some(i) = last_member(&candidates.tries, node.from, place) {
        place = i;
        if !is_to_try(
            rows,
            a,
            i,
            known_witnesses(crosses, a, node.witnesses, &work_lists.noted),
        ) {
            continue;
        }
        let met = child_at(crosses, node, i, work_lists)?;
        if let Some(child) = met {
            return Ok(Some(child));
        }
    }
    Ok(None)
}

/// The child of the node from attribute i: the least intent with i above the node's, if both agree before i. The places of its objects are put into the front
/// of `found`.
fn child_at<const W: usize>(
    crosses: &CrossTable<'_, W>,
    node: &Node<'_, W>,
    i: u32,
    work_lists: &mut WorkLists,
) -> Result<Option<LargerIntent<W>>, Memory>
    requires node { IsNode crosses.now node.now }
    requires inside { i < crosses.now.width }
    requires lacks { slice_index_or node.now.intent.now i false ≡ false }
    requires noted { AreWitnesses crosses.now node.now.intent.now work_lists.old.noted.items }
    ensures wide { IfOk result (λ met. IfSome met (λ child. length child.intent ≡ crosses.now.width)) }
    ensures closed { IfOk result (λ met. IfSome met (λ child. is_closed crosses.now child.intent ≡ true)) }
    ensures places { IfOk result (λ met. IfSome met (λ child. take child.count work_lists.new.found.items ≡ extent crosses.now child.intent)) }
    ensures few { IfOk result (λ met. IfSome met (λ child. child.count ≤ length work_lists.new.found.items)) }
    ensures attribute { IfOk result (λ met. IfSome met (λ child. child.attribute ≡ i)) }
    ensures larger { IfOk result (λ met. IfSome met (λ child. within node.now.intent.now child.intent ≡ true)) }
    ensures splits { IfOk result (λ met. MatchOption met
        (branch crosses.now node.now.intent.now i ≡ branch crosses.now node.now.intent.now (i + 1))
        (λ child. branch crosses.now node.now.intent.now i
        ≡ branch crosses.now node.now.intent.now (i + 1) ++ branch crosses.now child.intent (i + 1))) }
    ensures noted { OnOk result (AreWitnesses crosses.now node.now.intent.now work_lists.new.noted.items) }
{
    let rows = crosses.rows();
    let a = node.intent;
    let _width = rows.width();
    have_room(&mut work_lists.found, node.places.len())?;
    let larger = closure_with(crosses, node, i, &mut work_lists.found);
    if is_child(rows, a, i, &larger.intent) {
        return Ok(Some(larger));
    }
    begin_notes(crosses, a, node.witnesses, &mut work_lists.noted)?;
    note(
        rows,
        a,
        i,
        &larger.intent,
        node.from,
        crosses.supports(),
        &mut work_lists.noted,
    );
    Ok(None)
}

/// The closure of the node's intent with attribute i. The places of its objects are put into the front of `found`.
fn closure_with<const W: usize>(
    crosses: &CrossTable<'_, W>,
    node: &Node<'_, W>,
    i: u32,
    found: &mut Vec<u16>,
) -> LargerIntent<W>
    requires node { IsNode crosses.now node.now }
    requires inside { i < crosses.now.width }
    requires room { length node.now.places.now ≤ length found.old.items }
    ensures closed { result.intent ≡ closure crosses.now (slice_set node.now.intent.now i true) }
    ensures places { take result.count found.new.items ≡ extent crosses.now result.intent }
    ensures few { result.count ≤ length found.new.items }
    ensures attribute { result.attribute ≡ i }
{
    let rows = crosses.rows();
    let _width = rows.width();
    let count = crosses.keep_having(i, node.places, found);
    let intent = closure_at(rows, &found[..count], &node.intent.with(i));
    LargerIntent {
        intent,
        attribute: i,
        count,
    }
}

/// Makes the list at least so long.
fn have_room(list: &mut Vec<u16>, len: usize) -> Result<(), Memory>
    ensures { OnOk result (len ≤ length list.new.items) }
{
    if list.len() < len {
        list.resize(len, 0)?;
    }
    Ok(())
}
