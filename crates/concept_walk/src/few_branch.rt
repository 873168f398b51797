//! The concepts of a branch whose intent has few objects. The extent goes down the tree, as a set of these objects in one word.

ghost use Rattle.std.specs.Prelude.{◌≡◌, ◌≤◌, ◌<◌, ◌+◌, ◌++◌, true, false, OnOk, IfOk, IfSome, MatchOption, length, slice_index_or};
ghost use Rattle.fca_model.specs.Sets.{within};
ghost use Rattle.fca_model.specs.Context.{is_closed};
ghost use Rattle.lectic_concepts.specs.Branches.{branch, AreWitnesses};
ghost use Rattle.extent_places.specs.Few.{AreFew};
ghost use Rattle.concept_walk.specs.Nodes.{IsNode, IsFewNode};
ghost use Rattle.concept_walk.specs.Gatherings.{Fills};

use crate::cross_table::CrossTable;
use crate::gathering::Gathering;
use crate::node::Node;
use crate::notes::{begin_notes, known_witnesses};
use crate::work_lists::{WorkListPool, WorkLists, take_lists};
use attr_bits::Bits;
use extent_places::{
    FEW_OBJECTS, FewConcept, FewObjects, ObjectSet, attributes_to_try, last_member,
};
use fca_model::Memory;
use lectic_concepts::{is_child, is_to_try, note, pass_witnesses};
use std::alloc::Global;

/// A node whose objects are among few that were set apart.
#[derive(Drop)]
pub(crate) struct FewNode<'a, const W: usize> {
    /// The intent.
    pub(crate) intent: &'a Bits<W>,
    /// Its objects.
    pub(crate) objects: &'a ObjectSet,
    /// The first attribute from which a child may come.
    pub(crate) from: u32,
    /// For each attribute a member of the intent's closure with it, as far as that was found above.
    pub(crate) witnesses: &'a [u32],
}

/// Adds the concepts of the node's branch to the gathering, after its few objects are set apart.
pub(crate) fn gather_apart<const W: usize>(
    alloc: Global,
    crosses: &CrossTable<'_, W>,
    gathering: &mut Gathering<W>,
    node: &Node<'_, W>,
    pool: &mut WorkListPool<W>,
) -> Result<(), Memory>
    requires few { length node.now.places.now ≤ FEW_OBJECTS }
    requires node { IsNode crosses.now node.now }
    ensures { OnOk result (Fills crosses.now gathering.old gathering.new (branch crosses.now node.now.intent.now node.now.from)) }
{
    let _width = crosses.rows().width();
    let all = pool
        .few
        .set_apart(alloc, crosses.rows(), node.intent, node.places)?;
    let apart = FewNode {
        intent: node.intent,
        objects: &all,
        from: node.from,
        witnesses: node.witnesses,
    };
    gather_few(
        alloc,
        crosses,
        &pool.few,
        gathering,
        &apart,
        &mut pool.spare,
    )
}

/// Adds the concepts of the node's branch to the gathering. Its objects are some of the few.
fn gather_few<const W: usize>(
    alloc: Global,
    crosses: &CrossTable<'_, W>,
    few: &FewObjects<W>,
    gathering: &mut Gathering<W>,
    node: &FewNode<'_, W>,
    spare: &mut Vec<WorkLists>,
) -> Result<(), Memory>
    requires { IsFewNode crosses.now few.now node.now }
    ensures { OnOk result (Fills crosses.now gathering.old gathering.new (branch crosses.now node.now.intent.now node.now.from)) }
{
    let rows = crosses.rows();
    let a = node.intent;
    let mut end = rows.width();
    let mut work_lists = take_lists(alloc, spare);
    few.put_places(rows, a, node.objects, &mut work_lists.found)?;
    gathering.add(crosses, a, &work_lists.found)?;
    let tries = attributes_to_try(rows, a, &work_lists.found);
    while let Some(i) = last_member(&tries, node.from, end) {
        end = i;
        if !is_to_try(
            rows,
            a,
            i,
            known_witnesses(crosses, a, node.witnesses, &work_lists.noted),
        ) {
            continue;
        }
        let met = few_child_at(crosses, few, node, i, &mut work_lists.noted)?;
        let Some(child) = met else {
            continue;
        };
        let known = known_witnesses(crosses, a, node.witnesses, &work_lists.noted);
        let below = FewNode {
            intent: &child.intent,
            objects: &child.objects,
            from: i + 1,
            witnesses: pass_witnesses(rows, a, known, &child.intent),
        };
        gather_few(alloc, crosses, few, gathering, &below, spare)?;
    }
    spare.push(work_lists)?;
    Ok(())
}

/// The child of the node from attribute i: the least intent with i above the node's, if both agree before i.
fn few_child_at<const W: usize>(
    crosses: &CrossTable<'_, W>,
    few: &FewObjects<W>,
    node: &FewNode<'_, W>,
    i: u32,
    noted: &mut Vec<u32>,
) -> Result<Option<FewConcept<W>>, Memory>
    requires node { IsFewNode crosses.now few.now node.now }
    requires inside { i < crosses.now.width }
    requires lacks { slice_index_or node.now.intent.now i false ≡ false }
    requires noted { AreWitnesses crosses.now node.now.intent.now noted.old.items }
    ensures wide { IfOk result (λ met. IfSome met (λ child. length child.intent ≡ crosses.now.width)) }
    ensures closed { IfOk result (λ met. IfSome met (λ child. is_closed crosses.now child.intent ≡ true)) }
    ensures objects { IfOk result (λ met. IfSome met (λ child. AreFew crosses.now child.intent few.now child.objects)) }
    ensures larger { IfOk result (λ met. IfSome met (λ child. within node.now.intent.now child.intent ≡ true)) }
    ensures splits { IfOk result (λ met. MatchOption met
        (branch crosses.now node.now.intent.now i ≡ branch crosses.now node.now.intent.now (i + 1))
        (λ child. branch crosses.now node.now.intent.now i
        ≡ branch crosses.now node.now.intent.now (i + 1) ++ branch crosses.now child.intent (i + 1))) }
    ensures noted { OnOk result (AreWitnesses crosses.now node.now.intent.now noted.new.items) }
{
    let rows = crosses.rows();
    let a = node.intent;
    let larger = few.closure_with(rows, a, node.objects, i);
    if is_child(rows, a, i, &larger.intent) {
        return Ok(Some(larger));
    }
    begin_notes(crosses, a, node.witnesses, noted)?;
    note(
        rows,
        a,
        i,
        &larger.intent,
        node.from,
        crosses.supports(),
        noted,
    );
    Ok(None)
}
