//! The open sets that a walk has met.

ghost use Rattle.std.specs.Prelude.{◌≡◌, ◌≤◌, ◌++◌, [], min, OnOk, IfOk, filter, List, Bool, nat_le, nat_lt, ◌==◌};
ghost use Rattle.fca_model.specs.Sets.{Set, size};
ghost use Rattle.fca_model.specs.Context.{Context};
ghost use Rattle.fca_model.specs.Implications.{Rule};
ghost use Rattle.next_level.specs.NextLevel.{open_where};
ghost use Rattle.next_level.specs.LevelWalks.{IsSteady, IsLeastSize};

use crate::branches::Limits;
use attr_bits::Bits;
use fca_model::{Implication, Memory};
use std::alloc::Global;

/// The open sets met so far that are no larger than the bound, with their closures. After a number of visits the bound falls to the least size of these, and
/// from then on to the size of each smaller one.
#[derive(Drop)]
pub(crate) struct OpenSets<const W: usize> {
    pub bound: u32,
    pub visits: usize,
    pub members: Vec<Implication<Bits<W>>>,
}

impl<const W: usize> OpenSets<W> {
    /// The start of a walk, with no open sets yet.
    pub(crate) fn new(alloc: Global, limits: Limits) -> OpenSets<W>
        ensures bound { result.bound ≡ limits.bound }
        ensures members { result.members.items ≡ [] }
    {
        OpenSets {
            bound: limits.bound,
            visits: limits.visits,
            members: Vec::new(alloc),
        }
    }

    /// Counts one more visit. At the last one the bound falls.
    pub(crate) fn count_visit(&mut self, alloc: Global) -> Result<(), Memory>
        requires words { W ≤ 1024 }
        ensures listed { OnOk result ((J : List Rule) (K : Context) (p : Set → Bool)
            → self.old.members.items ≡ open_where J K self.old.bound p → self.new.members.items ≡ open_where J K self.new.bound p) }
        ensures steady { OnOk result (IsSteady self.old.bound self.old.members.items self.new.bound self.new.members.items) }
    {
        if self.visits == 0 {
            return Ok(());
        }
        self.visits -= 1;
        if self.visits == 0 {
            return self.fall(alloc);
        }
        Ok(())
    }

    /// Lowers the bound to the least size of an open set, if one was met.
    fn fall(&mut self, alloc: Global) -> Result<(), Memory>
        requires words { W ≤ 1024 }
        ensures listed { OnOk result ((J : List Rule) (K : Context) (p : Set → Bool)
            → self.old.members.items ≡ open_where J K self.old.bound p → self.new.members.items ≡ open_where J K self.new.bound p) }
        ensures steady { OnOk result (IsSteady self.old.bound self.old.members.items self.new.bound self.new.members.items) }
    {
        let least = least_size(&self.members, self.bound);
        let kept = up_to_size(alloc, &self.members, least)?;
        if kept.is_empty() {
            return Ok(());
        }
        self.members = kept;
        self.bound = least;
        Ok(())
    }

    /// Lowers the bound to the size of an open set, if no visits are left.
    pub(crate) fn fall_to(&mut self, alloc: Global, size: u32) -> Result<(), Memory>
        requires words { W ≤ 1024 }
        requires small { size ≤ self.old.bound }
        ensures at_least { OnOk result (size ≤ self.new.bound) }
        ensures listed { OnOk result ((J : List Rule) (K : Context) (p : Set → Bool)
            → self.old.members.items ≡ open_where J K self.old.bound p → self.new.members.items ≡ open_where J K self.new.bound p) }
    {
        if self.visits > 0 || size == self.bound {
            return Ok(());
        }
        self.members = up_to_size(alloc, &self.members, size)?;
        self.bound = size;
        Ok(())
    }

    /// Appends others, up to the lower of both bounds.
    pub(crate) fn append(&mut self, alloc: Global, others: &OpenSets<W>) -> Result<(), Memory>
        requires words { W ≤ 1024 }
        ensures bound { OnOk result (self.new.bound ≡ min self.old.bound others.now.bound) }
        ensures members { OnOk result (self.new.members.items
            ≡ filter (λ i. nat_le (size i.premise) self.new.bound) self.old.members.items
            ++ filter (λ i. nat_le (size i.premise) self.new.bound) others.now.members.items) }
    {
        let bound = self.bound.min(others.bound);
        self.members = up_to_size(alloc, &self.members, bound)?;
        let mut more = up_to_size(alloc, &others.members, bound)?;
        self.members.append(&mut more)?;
        self.bound = bound;
        Ok(())
    }
}

/// Those whose premises have at most this size.
fn up_to_size<const W: usize>(
    alloc: Global,
    members: &[Implication<Bits<W>>],
    most: u32,
) -> Result<Vec<Implication<Bits<W>>>, Memory>
    requires words { W ≤ 1024 }
    ensures { IfOk result (λ kept. kept.items ≡ filter (λ i. nat_le (size i.premise) most) members.now) }
{
    Ok(
        members
            .iter()
            .copied()
            .filter(
                |member: &Implication<Bits<W>>| -> bool
                    ensures { result ≡ nat_le (size member.now.premise) most }
                { member.premise.size() <= most },
            )
            .collect(alloc)?,
    )
}

/// Those whose premises have this size.
pub(crate) fn of_size<const W: usize>(
    alloc: Global,
    members: &[Implication<Bits<W>>],
    premise_size: u32,
) -> Result<Vec<Implication<Bits<W>>>, Memory>
    requires words { W ≤ 1024 }
    ensures { IfOk result (λ kept. kept.items ≡ filter (λ i. size i.premise == premise_size) members.now) }
{
    Ok(
        members
            .iter()
            .copied()
            .filter(
                |member: &Implication<Bits<W>>| -> bool
                    ensures { result ≡ (size member.now.premise == premise_size) }
                { member.premise.size() == premise_size },
            )
            .collect(alloc)?,
    )
}

/// Those whose premises are larger.
pub(crate) fn of_larger_size<const W: usize>(
    alloc: Global,
    members: &[Implication<Bits<W>>],
    premise_size: u32,
) -> Result<Vec<Implication<Bits<W>>>, Memory>
    requires words { W ≤ 1024 }
    ensures { IfOk result (λ kept. kept.items ≡ filter (λ i. nat_lt premise_size (size i.premise)) members.now) }
{
    Ok(
        members
            .iter()
            .copied()
            .filter(
                |member: &Implication<Bits<W>>| -> bool
                    ensures { result ≡ nat_lt premise_size (size member.now.premise) }
                { member.premise.size() > premise_size },
            )
            .collect(alloc)?,
    )
}

/// The least size of a premise, or the given number if no premise is smaller.
pub(crate) fn least_size<const W: usize>(members: &[Implication<Bits<W>>], past: u32) -> u32
    requires words { W ≤ 1024 }
    ensures { IsLeastSize past members.now result }
{
    let mut least = past;
    for member in members {
        least = least.min(member.premise.size());
    }
    least
}
