//! How the next level is looked for: by one thread, or by several.

ghost use Rattle.std.specs.Prelude.{◌≡◌, ◌≤◌, [], IfOk};
ghost use Rattle.fca_model.specs.Sets.{size};
ghost use Rattle.next_level.specs.NextLevel.{open_where, everything};
ghost use Rattle.next_level.specs.Openings.{CanOpen, IsOpened};

use crate::ahead::Ahead;
use crate::branches::{LevelWalk, Limits, Walker};
use crate::open_sets::OpenSets;
use crate::{FoundLevel, find_next_by};
use derivation::Rows;
use fca_model::Memory;
use implication_closure::ImplicationList;
use std::alloc::Global;
use std::thread::{Threads, available_parallelism};

/// How many parts a walk has for each processor: two for each of the two pieces that `collect` makes.
const PARTS: u32 = 4;

/// How many parts a walk has at most, as each has a list of its own.
pub const MOST_PARTS: u32 = 32;

/// A way to look for the next level.
pub trait LevelSearch {
    /// The next level that has a member, looked for among candidates if these are whole. It also returns candidates for later levels.
    fn find_next(
        &self,
        alloc: Global,
        rows: &Rows,
        rules: &ImplicationList,
        ahead: &Ahead,
    ) -> Result<FoundLevel, Memory>
        requires { CanOpen rows.now rules.now ahead.now }
        ensures { IfOk result (λ opened. IsOpened rows.now rules.now opened.level.size opened.level.members.items opened.ahead) };
}

/// The thread that asks looks for the level.
#[derive(Clone, Copy, Debug)]
pub struct OneThread;

impl LevelSearch for OneThread {
    fn find_next(
        &self,
        alloc: Global,
        rows: &Rows,
        rules: &ImplicationList,
        ahead: &Ahead,
    ) -> Result<FoundLevel, Memory> {
        find_next_by(self, alloc, rows, rules, ahead)
    }
}

/// Several threads share the branches if there is enough to do and `most_threads` is more than one. Otherwise the thread that asks looks for the level.
#[derive(Drop)]
pub struct SideBySide<'a, R> {
    pub rt: &'a R,
    pub most_threads: u32,
}

impl<'a, R: Threads> LevelSearch for SideBySide<'a, R> {
    fn find_next(
        &self,
        alloc: Global,
        rows: &Rows,
        rules: &ImplicationList,
        ahead: &Ahead,
    ) -> Result<FoundLevel, Memory> {
        find_next_by(self, alloc, rows, rules, ahead)
    }
}

impl<'a, R: Threads> SideBySide<'a, R> {
    /// The search by as many threads as there are processors, but no more than a walk has parts.
    pub fn on_all_processors(rt: &'a R) -> SideBySide<'a, R>
        ensures few { result.most_threads ≤ MOST_PARTS }
    {
        let most = MOST_PARTS as usize;
        let count = available_parallelism(rt).map_or(1, |count| count.get());
        SideBySide {
            rt,
            most_threads: count.min(most) as u32,
        }
    }

    /// How many branches a walk over this many attributes has beside its first part. Without implications a part has no list to be made, so half of the
    /// attributes have a branch each, and the first part is small.
    fn branches(&self, width: u32, has_rules: bool) -> u32
        ensures { result ≤ width }
    {
        if !has_rules {
            return width / 2;
        }
        self.most_threads
            .saturating_mul(PARTS)
            .min(MOST_PARTS)
            .saturating_sub(1)
            .min(width)
    }
}

impl<const W: usize> Walker<W> for OneThread {
    fn walk(
        &self,
        alloc: Global,
        walk: &LevelWalk<W>,
        limits: Limits,
    ) -> Result<OpenSets<W>, Memory>
        requires { size walk.now.least ≤ limits.bound }
        ensures listed { IfOk result (λ sets. sets.members.items ≡ open_where walk.now.list.members walk.now.indexed sets.bound everything) }
        ensures steady { IfOk result (λ sets. sets.members.items ≡ [] → sets.bound ≡ limits.bound) }
    {
        walk.open_sets_behind(alloc, 0, limits)
    }
}

impl<'a, R: Threads, const W: usize> Walker<W> for SideBySide<'a, R> {
    fn walk(
        &self,
        alloc: Global,
        walk: &LevelWalk<W>,
        limits: Limits,
    ) -> Result<OpenSets<W>, Memory>
        requires { size walk.now.least ≤ limits.bound }
        ensures listed { IfOk result (λ sets. sets.members.items ≡ open_where walk.now.list.members walk.now.indexed sets.bound everything) }
        ensures steady { IfOk result (λ sets. sets.members.items ≡ [] → sets.bound ≡ limits.bound) }
    {
        if self.most_threads > 1 && walk.pays(limits) {
            let width = walk.indexed.rows().width();
            let branches = self.branches(width, walk.has_rules());
            let all = walk.open_sets_by_parts(self.rt, alloc, branches, limits)?;
            return Ok(all);
        }
        walk.open_sets_behind(alloc, 0, limits)
    }
}
