//! The steps of the walk that are not done. They wait in a list, so the depth of the tree asks nothing of the stack.

ghost use Rattle.std.specs.Prelude.{◌≡◌, ◌≤◌, [], true, IfOk, length, take};
ghost use Rattle.fca_model.specs.Context.{extent, is_closed};
ghost use Rattle.lectic_concepts.specs.Branches.{AreWitnesses};
ghost use Rattle.concept_walk.specs.Nodes.{IsNode, AreCandidates};
ghost use Rattle.concept_walk.specs.Steps.{IsStep, BeginsAt, HasEntered, HasDescended};

use crate::branch::next_child;
use crate::cross_table::CrossTable;
use crate::few_branch::gather_apart;
use crate::gathering::Gathering;
use crate::node::{Candidates, Node};
use crate::notes::known_witnesses;
use crate::work_lists::{WorkListPool, WorkLists, take_lists};
use attr_bits::Bits;
use extent_places::{attributes_to_try, last_member, pays_to_set_apart};
use fca_model::Memory;
use lectic_concepts::pass_witnesses;
use std::alloc::Global;
use std::mem::replace;

/// A node whose children are looked for, the last first.
#[derive(Drop)]
pub(crate) struct Step<const W: usize> {
    /// The intent.
    pub(crate) intent: Bits<W>,
    /// The places of its objects, in front.
    pub(crate) places: Vec<u16>,
    /// How many those are.
    pub(crate) count: usize,
    /// The first attribute from which a child may come.
    pub(crate) from: u32,
    /// For each attribute a member of the intent's closure with it, as far as that was found above.
    pub(crate) witnesses: Vec<u32>,
    /// The attributes from which a child may come.
    pub(crate) candidates: Candidates<W>,
    /// The lists to write on while a child is looked for.
    pub(crate) work_lists: WorkLists,
}

/// The outcome of the search for the next child.
#[derive(Drop)]
pub(crate) enum Descent<const W: usize> {
    /// No child is left.
    End,
    /// A child, whose whole branch was gathered.
    WholeBranch,
    /// A child, whose concept was added, and below which others may be.
    Below(Step<W>),
}

/// Adds the concept of the node's intent to the gathering, or those of its whole branch if it pays or there are no others. If more may be left, gives the
/// attributes from which a child may come.
pub(crate) fn enter<const W: usize>(
    alloc: Global,
    crosses: &CrossTable<'_, W>,
    gathering: &mut Gathering<W>,
    node: &Node<'_, W>,
    pool: &mut WorkListPool<W>,
) -> Result<Option<Candidates<W>>, Memory>
    requires { IsNode crosses.now node.now }
    ensures { IfOk result (λ left. HasEntered crosses.now gathering.old gathering.new node.now left) }
{
    let rows = crosses.rows();
    let width = rows.width();
    if pays_to_set_apart(node.places.len(), width.saturating_sub(node.from)) {
        gather_apart(alloc, crosses, gathering, node, pool)?;
        return Ok(None);
    }
    gathering.add(crosses, node.intent, node.places)?;
    let tries = attributes_to_try(rows, node.intent, node.places);
    let Some(last) = last_member(&tries, node.from, width) else {
        return Ok(None);
    };
    Ok(Some(Candidates {
        tries,
        end: last + 1,
    }))
}

/// The step at the node.
pub(crate) fn first_step<const W: usize>(
    alloc: Global,
    crosses: &CrossTable<'_, W>,
    node: &Node<'_, W>,
    candidates: Candidates<W>,
    pool: &mut WorkListPool<W>,
) -> Result<Step<W>, Memory>
    requires node { IsNode crosses.now node.now }
    requires candidates { AreCandidates crosses.now node.now.intent.now candidates }
    requires order { node.now.from ≤ candidates.end }
    ensures { IfOk result (λ step. BeginsAt crosses.now node.now.intent.now node.now.from candidates.entry.end step) }
{
    let _width = crosses.rows().width();
    let mut lists = take_lists(alloc, &mut pool.spare);
    lists.found.clear();
    lists.found.extend_from_slice(node.places)?;
    lists.noted.extend_from_slice(node.witnesses)?;
    Ok(Step {
        intent: *node.intent,
        places: lists.found,
        count: node.places.len(),
        from: node.from,
        witnesses: lists.noted,
        candidates,
        work_lists: take_lists(alloc, &mut pool.spare),
    })
}

/// Enters the next child of the step, the last that is left.
pub(crate) fn next_step<const W: usize>(
    alloc: Global,
    crosses: &CrossTable<'_, W>,
    gathering: &mut Gathering<W>,
    step: &mut Step<W>,
    pool: &mut WorkListPool<W>,
) -> Result<Descent<W>, Memory>
    requires { IsStep crosses.now step.old }
    ensures { IfOk result (λ descent. HasDescended crosses.now gathering.old gathering.new step.old step.new descent) }
{
    let _width = crosses.rows().width();
    let node = Node {
        intent: &step.intent,
        places: &step.places[..step.count],
        from: step.from,
        witnesses: &step.witnesses,
    };
    let met = next_child(crosses, &node, &step.candidates, &mut step.work_lists)?;
    let Some(child) = met else {
        return Ok(Descent::End);
    };
    step.candidates.end = child.attribute;
    let known = known_witnesses(
        crosses,
        &step.intent,
        &step.witnesses,
        &step.work_lists.noted,
    );
    let passed = pass_witnesses(crosses.rows(), &step.intent, known, &child.intent);
    let below = Node {
        intent: &child.intent,
        places: &step.work_lists.found[..child.count],
        from: child.attribute + 1,
        witnesses: passed,
    };
    let Some(candidates) = enter(alloc, crosses, gathering, &below, pool)? else {
        return Ok(Descent::WholeBranch);
    };
    let mut lists = take_lists(alloc, &mut pool.spare);
    lists.noted.extend_from_slice(passed)?;
    Ok(Descent::Below(Step {
        intent: child.intent,
        places: replace(&mut step.work_lists.found, lists.found),
        count: child.count,
        from: child.attribute + 1,
        witnesses: lists.noted,
        candidates,
        work_lists: take_lists(alloc, &mut pool.spare),
    }))
}

/// Puts back the lists of the step. Later steps take them again, at the same depth those of the same length.
pub(crate) fn put_back<const W: usize>(
    step: Step<W>,
    spare: &mut Vec<WorkLists>,
) -> Result<(), Memory> {
    spare.push(step.work_lists)?;
    spare.push(WorkLists {
        found: step.places,
        noted: step.witnesses,
    })?;
    Ok(())
}
