//! The branches of a walk. Each can be walked through alone, so several threads may share them.

ghost use Rattle.std.specs.Prelude.{◌≡◌, ◌≤◌, ◌<◌, ◌+◌, ◌-◌, ◌*◌, ℕ, [], IfOk};
ghost use Rattle.fca_model.specs.Sets.{size};
ghost use Rattle.implication_closure.specs.Concerns.{concerning};
ghost use Rattle.lectic_basis.specs.Trees.{up_to};
ghost use Rattle.next_level.specs.NextLevel.{open_where, everything};
ghost use Rattle.next_level.specs.Among.{AllAmong};
ghost use Rattle.next_level.specs.Branches.{IsRoot, AreOpen, in_branch, in_part};
ghost use Rattle.next_level.specs.LevelWalks.{IsInside};
ghost use Rattle.next_level.specs.Openings.{CanOpen};

use crate::ahead::Ahead;
use crate::open_sets::OpenSets;
use crate::shortlist::Shortlist;
use crate::walk::{child_among, visit_all};
use attr_bits::{Attrs, Bits};
use derivation::Rows;
use extent_blocks::IndexedRows;
use fca_model::{Implication, Memory};
use implication_closure::{ImplicationList, ImplicationListOf};
use lectic_basis::{WatchedList, close};
use std::alloc::Global;

/// Several threads share a walk under at least this many implications, and among at least this many candidates if these are whole.
const MANY: usize = 1024;

/// Without implications they share it from this size on.
const LARGE_SIZE: u32 = 4;

/// Without implications they share it from this many attributes on.
const WIDE: u32 = 24;

/// On very wide tables they share it from this size on, as there the walk through the sets of one small size is long.
const LARGE_IF_VERY_WIDE: u32 = 3;

/// A table is very wide from this many attributes on.
const VERY_WIDE: u32 = 96;

/// How far a walk goes: to sets of the size of the bound, which falls to the least open ones after a number of visits.
#[derive(Clone, Copy)]
pub(crate) struct Limits {
    pub bound: u32,
    pub visits: usize,
}

/// Who walks through the branches.
pub(crate) trait Walker<const W: usize> {
    /// All open sets up to the bound, or up to a lower one after the visits.
    fn walk(
        &self,
        alloc: Global,
        walk: &LevelWalk<W>,
        limits: Limits,
    ) -> Result<OpenSets<W>, Memory>
        requires { size walk.now.least ≤ limits.bound }
        ensures listed { IfOk result (λ sets. sets.members.items ≡ open_where walk.now.list.members walk.now.indexed sets.bound everything) }
        ensures steady { IfOk result (λ sets. sets.members.items ≡ [] → sets.bound ≡ limits.bound) };
}

/// What is walked through: the sets that respect a list, the least of which is given, and candidates to which the open ones may be limited.
#[derive(Drop)]
pub(crate) struct LevelWalk<const W: usize> {
    pub indexed: IndexedRows<W>,
    pub list: ImplicationListOf<W>,
    pub least: Bits<W>,
    pub among: Shortlist<W>,
    pub ghost root: { IsRoot indexed list least },
    pub ghost all_among: { AllAmong list.members indexed among.whole among.sets.items },
}

impl<const W: usize> LevelWalk<W> {
    /// The walk through the sets that respect the rules.
    pub(crate) fn new(
        alloc: Global,
        rows: &Rows,
        rules: &ImplicationList,
        ahead: &Ahead,
    ) -> Result<LevelWalk<W>, Memory>
        requires words { W ≤ 1024 }
        requires fits { rows.now.width ≤ 64 * W }
        requires opening { CanOpen rows.now rules.now ahead.now }
        ensures indexed { IfOk result (λ walk. walk.indexed ≡ rows.now) }
        ensures list { IfOk result (λ walk. walk.list ≡ rules.now) }
    {
        let _width = rules.width();
        let least = rules.naive_closure(&Attrs::empty(rows.width()));
        let indexed = IndexedRows::new(alloc, rows.resize::<W>(alloc)?)?;
        let sets = ahead.sets.resize::<W>(alloc)?;
        let among = Shortlist::of(alloc, ahead.whole, sets.as_slice())?;
        Ok(LevelWalk {
            indexed,
            list: rules.resize::<W>(alloc)?,
            least: least.resize(),
            among,
        })
    }

    /// The open sets that agree with the least set before attribute `from`, or come before it.
    pub(crate) fn open_sets_behind(
        &self,
        alloc: Global,
        from: u32,
        limits: Limits,
    ) -> Result<OpenSets<W>, Memory>
        requires inside { from ≤ self.now.indexed.width }
        requires small { size self.now.least ≤ limits.bound }
        ensures listed { IfOk result (λ sets. sets.members.items ≡ open_where self.now.list.members self.now.indexed sets.bound (up_to from self.now.least)) }
        ensures steady { IfOk result (λ sets. sets.members.items ≡ [] → sets.bound ≡ limits.bound) }
    {
        let _width = self.list.width();
        let mut rules = self.rules_from(alloc, from)?;
        let mut seen = OpenSets::new(alloc, limits);
        let among = self.among.copy(alloc)?;
        visit_all(
            alloc,
            &self.indexed,
            &mut rules,
            &mut seen,
            &self.least,
            from,
            among,
        )?;
        Ok(seen)
    }

    /// The implications that concern the sets which agree with the least one before attribute `from`. Each waits for an attribute that the least set lacks.
    fn rules_from(&self, alloc: Global, from: u32) -> Result<WatchedList<W>, Memory>
        ensures list { IfOk result (λ rules. rules.list ≡ concerning from self.now.least self.now.list) }
        ensures inside { IfOk result (λ rules. (k : ℕ) → k ≤ self.now.indexed.width → IsInside self.now.indexed self.now.least k rules) }
    {
        let _width = self.list.width();
        let list = self.list.concerning(alloc, &self.least, from)?;
        let rules = WatchedList::of_narrow(alloc, list, &self.least)?;
        Ok(rules)
    }

    /// The open sets of the branch of attribute i. The list gets one more implication: that they contain the least set of the branch. So nothing comes before it.
    fn open_sets_in_branch(
        &self,
        alloc: Global,
        i: u32,
        limits: Limits,
    ) -> Result<OpenSets<W>, Memory>
        requires { i < self.now.indexed.width }
        ensures listed { IfOk result (λ sets. sets.members.items ≡ open_where self.now.list.members self.now.indexed sets.bound (in_branch i self.now.least)) }
        ensures steady { IfOk result (λ sets. sets.members.items ≡ [] → sets.bound ≡ limits.bound) }
    {
        let _width = self.list.width();
        let indexed = &self.indexed;
        let mut seen = OpenSets::new(alloc, limits);
        if self.least.has(i) {
            return Ok(seen);
        }
        if self.among.skips(&self.least, i) {
            return Ok(seen);
        }
        let mut rules = self.rules_from(alloc, i)?;
        let mut reached = self.least.with(i);
        if !close(&mut rules, &self.least, &mut reached, i)? {
            return Ok(seen);
        }
        if reached.size() > limits.bound {
            return Ok(seen);
        }
        let part = child_among(
            alloc,
            indexed,
            &rules,
            &self.least,
            i,
            &self.among,
            &reached,
        )?;
        rules.push_to_wait(
            Implication {
                premise: self.least,
                conclusion: reached,
            },
            0,
        )?;
        visit_all(alloc, indexed, &mut rules, &mut seen, &reached, i + 1, part)?;
        Ok(seen)
    }

    /// Whether there are implications.
    pub(crate) fn has_rules(&self) -> bool {
        !self.list.as_slice().is_empty()
    }

    /// Whether several threads are likely to be faster than one.
    pub(crate) fn pays(&self, limits: Limits) -> bool {
        let width = self.list.width();
        let count = self.list.as_slice().len();
        let many = count >= MANY;
        let large = count == 0 && has_many_sets(width, limits.bound);
        let few = self.among.whole && self.among.sets.len() < MANY;
        !few && (many || large)
    }

    /// The open sets of part k. Part 0 has what agrees with the least set before attribute `count`, and the next parts are the branches before, the last first.
    pub(crate) fn open_sets_in_part(
        &self,
        alloc: Global,
        count: u32,
        k: u32,
        limits: Limits,
    ) -> Result<OpenSets<W>, Memory>
        requires inside { count ≤ self.now.indexed.width }
        requires part { k ≤ count }
        requires small { size self.now.least ≤ limits.bound }
        ensures { IfOk result (λ sets. AreOpen self.now.list.members self.now.indexed (in_part count k self.now.least) limits.bound sets.bound sets.members.items) }
    {
        if k == 0 {
            return self.open_sets_behind(alloc, count, limits);
        }
        self.open_sets_in_branch(alloc, count - k, limits)
    }
}

/// Whether sets of these many attributes, up to this size, are so many that several threads share a walk through all of them.
fn has_many_sets(width: u32, size: u32) -> bool {
    let large = if width >= VERY_WIDE {
        LARGE_IF_VERY_WIDE
    } else {
        LARGE_SIZE
    };
    width >= WIDE && size >= large
}
