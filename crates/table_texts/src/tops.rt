//! The tree of intents as a list of branches. The concepts of each can be gathered by themselves.

ghost use Rattle.std.specs.Prelude.{◌≡◌, ◌≤◌, ◌++◌, true, All, IfOk, OnOk, length};
ghost use Rattle.std.specs.List.{flat_map};
ghost use Rattle.fca_model.specs.Context.{is_closed};
ghost use Rattle.fca_model.specs.Pseudo.{intents};
ghost use Rattle.lectic_concepts.specs.Branches.{branch};
ghost use Rattle.concept_walk.specs.Nodes.{IsNode};
ghost use Rattle.table_texts.specs.Tops.{IsTop, branches};

use attr_bits::Bits;
use concept_walk::{Candidates, CrossTable, Node, WorkLists, known_witnesses, next_child};
use extent_places::attributes_to_try;
use fca_model::Memory;
use lectic_concepts::{own_witnesses, pass_witnesses};
use std::alloc::Global;

/// So many branches are enough, so none is laid out again.
const ENOUGH_BRANCHES: usize = 2_048;

/// A large branch seems at least this part of all.
const LARGE_DIVISOR: usize = 128;

/// So many branches are many.
const MANY_BRANCHES: usize = 12;

/// The branches overlap if their pairs share at least so many objects.
const LEAST_SHARED_OBJECTS: usize = 512;

/// The branch of a node of the tree of intents, with what a walk of it begins with. It owns its places and witnesses, which a `Node` borrows.
#[derive(Drop)]
pub(crate) struct Top<const W: usize> {
    pub(crate) intent: Bits<W>,
    pub(crate) from: u32,
    pub(crate) places: Vec<u16>,
    pub(crate) witnesses: Vec<u32>,
}

impl<const W: usize> Top<W> {
    /// The node.
    pub(crate) fn node(&self, crosses: &CrossTable<'_, W>) -> Node<'_, W>
        requires { IsTop crosses.now self.now }
        ensures node { IsNode crosses.now result }
        ensures intent { result.intent.now ≡ self.now.intent }
        ensures from { result.from ≡ self.now.from }
    {
        let _width = crosses.rows().width();
        Node {
            intent: &self.intent,
            places: &self.places,
            from: self.from,
            witnesses: &self.witnesses,
        }
    }

    /// How large the branch may be: the pairs of its objects, times the attributes that are left.
    fn bulk(&self) -> usize {
        let left = self.intent.width().saturating_sub(self.from) as usize;
        let objects = self.places.len();
        objects.saturating_mul(objects).saturating_mul(left)
    }
}

/// The least bulk of a branch that is a large part of these.
pub(crate) fn least_large_bulk<const W: usize>(tops: &[Top<W>]) -> usize {
    let mut whole = 0usize;
    for top in tops {
        whole = whole.saturating_add(top.bulk());
    }
    whole / LARGE_DIVISOR
}

/// The branch of all intents.
pub(crate) fn root_of<const W: usize>(
    alloc: Global,
    crosses: &CrossTable<'_, W>,
) -> Result<Vec<Top<W>>, Memory>
    ensures tops { IfOk result (λ tops. All (IsTop crosses.now) tops.items) }
    ensures branches { IfOk result (λ tops. branches crosses.now tops.items ≡ intents crosses.now) }
{
    let rows = crosses.rows();
    let least = least_intent(crosses);
    let places = crosses.extent(alloc, &least)?;
    let witnesses = own_witnesses(alloc, rows, &least)?;
    let root = Node {
        intent: &least,
        places: &places,
        from: 0,
        witnesses: &witnesses,
    };
    let mut tops = Vec::new(alloc);
    add_top(alloc, crosses, &root, &mut tops)?;
    Ok(tops)
}

/// Whether it pays to go through the branches side by side: they are many, and they overlap. The answer is the same either way.
pub(crate) fn pays<const W: usize>(tops: &[Top<W>]) -> bool {
    let most = most_objects(tops);
    MANY_BRANCHES <= tops.len()
        && LEAST_SHARED_OBJECTS.saturating_mul(most) <= overlap_of(tops, most)
}

/// The most objects of a branch.
fn most_objects<const W: usize>(tops: &[Top<W>]) -> usize {
    let mut most = 0usize;
    for top in tops {
        most = most.max(top.places.len());
    }
    most
}

/// About the number of objects that all pairs of branches share, times the most of one branch.
fn overlap_of<const W: usize>(tops: &[Top<W>], most: usize) -> usize {
    let mut squares = 0usize;
    for top in tops {
        let len = top.places.len();
        squares = squares.saturating_add(len.saturating_mul(len));
    }
    squares.saturating_sub(most.saturating_mul(most))
}

/// The intent that all others contain.
fn least_intent<const W: usize>(crosses: &CrossTable<'_, W>) -> Bits<W>
    ensures wide { length result ≡ crosses.now.width }
    ensures closed { is_closed crosses.now result ≡ true }
    ensures least { branch crosses.now result 0 ≡ intents crosses.now }
{
    let rows = crosses.rows();
    rows.closure(&Bits::empty(rows.width()))
}

/// The branches. Each that seems at least so large is laid out as its intent alone and the branches of its children, until these are enough.
pub(crate) fn split_large<const W: usize>(
    alloc: Global,
    crosses: &CrossTable<'_, W>,
    tops: &[Top<W>],
    least_bulk: usize,
) -> Result<Vec<Top<W>>, Memory>
    requires tops { All (IsTop crosses.now) tops.now }
    ensures tops { IfOk result (λ more. All (IsTop crosses.now) more.items) }
    ensures branches { IfOk result (λ more. branches crosses.now more.items ≡ branches crosses.now tops.now) }
{
    let _width = crosses.rows().width();
    let mut more = Vec::new(alloc);
    for top in tops {
        split_if_large(alloc, crosses, top, least_bulk, &mut more)?;
    }
    Ok(more)
}

/// Puts the branch last. It is laid out if it seems at least so large and the branches are not enough yet.
fn split_if_large<const W: usize>(
    alloc: Global,
    crosses: &CrossTable<'_, W>,
    top: &Top<W>,
    least_bulk: usize,
    more: &mut Vec<Top<W>>,
) -> Result<(), Memory>
    requires top { IsTop crosses.now top.now }
    requires tops { All (IsTop crosses.now) more.old.items }
    ensures tops { OnOk result (All (IsTop crosses.now) more.new.items) }
    ensures branches { OnOk result (branches crosses.now more.new.items
        ≡ branches crosses.now more.old.items ++ branch crosses.now top.now.intent top.now.from) }
{
    let _width = crosses.rows().width();
    if least_bulk <= top.bulk() && more.len() < ENOUGH_BRANCHES {
        return split_branch(alloc, crosses, top, more);
    }
    add_top(alloc, crosses, &top.node(crosses), more)?;
    Ok(())
}

/// Puts the intent alone and the branches of its children last.
fn split_branch<const W: usize>(
    alloc: Global,
    crosses: &CrossTable<'_, W>,
    top: &Top<W>,
    more: &mut Vec<Top<W>>,
) -> Result<(), Memory>
    requires top { IsTop crosses.now top.now }
    requires tops { All (IsTop crosses.now) more.old.items }
    ensures tops { OnOk result (All (IsTop crosses.now) more.new.items) }
    ensures branches { OnOk result (branches crosses.now more.new.items
        ≡ branches crosses.now more.old.items ++ branch crosses.now top.now.intent top.now.from) }
{
    let rows = crosses.rows();
    let node = top.node(crosses);
    let mut candidates = Candidates {
        tries: attributes_to_try(rows, node.intent, node.places),
        end: rows.width(),
    };
    let alone = Node {
        intent: node.intent,
        places: node.places,
        from: candidates.end,
        witnesses: node.witnesses,
    };
    add_top(alloc, crosses, &alone, more)?;
    let mut work_lists = WorkLists::new(alloc);
    while node.from < candidates.end {
        let met = next_child(crosses, &node, &candidates, &mut work_lists)?;
        let Some(child) = met else {
            break;
        };
        candidates.end = child.attribute;
        let known = known_witnesses(crosses, node.intent, node.witnesses, &work_lists.noted);
        let below = Node {
            intent: &child.intent,
            places: &work_lists.found[..child.count],
            from: child.attribute + 1,
            witnesses: pass_witnesses(rows, node.intent, known, &child.intent),
        };
        add_top(alloc, crosses, &below, more)?;
    }
    Ok(())
}

/// Puts the node's branch last.
fn add_top<const W: usize>(
    alloc: Global,
    crosses: &CrossTable<'_, W>,
    node: &Node<'_, W>,
    tops: &mut Vec<Top<W>>,
) -> Result<(), Memory>
    requires node { IsNode crosses.now node.now }
    requires tops { All (IsTop crosses.now) tops.old.items }
    ensures tops { OnOk result (All (IsTop crosses.now) tops.new.items) }
    ensures branches { OnOk result (branches crosses.now tops.new.items
        ≡ branches crosses.now tops.old.items ++ branch crosses.now node.now.intent.now node.now.from) }
{
    let _width = crosses.rows().width();
    tops.push(Top {
        intent: *node.intent,
        from: node.from,
        places: Vec::from_slice(alloc, node.places)?,
        witnesses: Vec::from_slice(alloc, node.witnesses)?,
    })?;
    Ok(())
}
