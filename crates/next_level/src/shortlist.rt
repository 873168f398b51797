//! Candidates: sets to which the open ones may be limited, and those of them in a branch of the walk.

ghost use Rattle.std.specs.Prelude.{◌≡◌, ◌≤◌, ◌&&◌, IfOk, filter, not, true};
ghost use Rattle.std.specs.List.{list_any};
ghost use Rattle.fca_model.specs.Exploration.{first_missing};
ghost use Rattle.next_level.specs.Among.{stands_at};

use attr_bits::Bits;
use fca_model::Memory;
use std::alloc::Global;

/// If `whole`, every open set is one of these; otherwise they say nothing.
#[derive(Drop)]
pub(crate) struct Shortlist<const W: usize> {
    pub whole: bool,
    pub sets: Vec<Bits<W>>,
}

impl<const W: usize> Shortlist<W> {
    /// These sets.
    pub(crate) fn of(alloc: Global, whole: bool, sets: &[Bits<W>]) -> Result<Shortlist<W>, Memory>
        requires words { W ≤ 1024 }
        ensures { IfOk result (λ among. (among.whole ≡ whole) × (among.sets.items ≡ sets.now)) }
    {
        let sets = sets.iter().copied().collect(alloc)?;
        Ok(Shortlist { whole, sets })
    }

    /// These sets once more.
    pub(crate) fn copy(&self, alloc: Global) -> Result<Shortlist<W>, Memory>
        requires words { W ≤ 1024 }
        ensures { IfOk result (λ among. (among.whole ≡ self.now.whole) × (among.sets.items ≡ self.now.sets.items)) }
    {
        Shortlist::of(alloc, self.whole, &self.sets)
    }

    /// Those whose first attribute outside a is i.
    pub(crate) fn branch(&self, alloc: Global, a: &Bits<W>, i: u32) -> Result<Shortlist<W>, Memory>
        requires words { W ≤ 1024 }
        ensures { IfOk result (λ part. (part.whole ≡ self.now.whole) × (part.sets.items ≡ filter (λ X. stands_at i (first_missing 0 X a.now)) self.now.sets.items)) }
    {
        let sets = part_of(alloc, &self.sets, a, i)?;
        Ok(Shortlist {
            whole: self.whole,
            sets,
        })
    }

    /// Whether no open set is in the branch of attribute i.
    pub(crate) fn skips(&self, a: &Bits<W>, i: u32) -> bool
        requires words { W ≤ 1024 }
        ensures { result ≡ (self.now.whole && not (list_any (λ X. stands_at i (first_missing 0 X a.now)) self.now.sets.items)) }
    {
        self.whole && !is_any_in_branch(&self.sets, a, i)
    }
}

/// Those of the sets whose first attribute outside a is i.
fn part_of<const W: usize>(
    alloc: Global,
    among: &[Bits<W>],
    a: &Bits<W>,
    i: u32,
) -> Result<Vec<Bits<W>>, Memory>
    requires words { W ≤ 1024 }
    ensures { IfOk result (λ part. part.items ≡ filter (λ X. stands_at i (first_missing 0 X a.now)) among.now) }
{
    Ok(
        among
            .iter()
            .copied()
            .filter(
                |set: &Bits<W>| -> bool
                    ensures { result ≡ stands_at i (first_missing 0 set.now a.entry.now) }
                { is_in_branch(set, a, i) },
            )
            .collect(alloc)?,
    )
}

/// Whether i is the first attribute of the set outside a.
fn is_in_branch<const W: usize>(set: &Bits<W>, a: &Bits<W>, i: u32) -> bool
    ensures { result ≡ stands_at i (first_missing 0 set.now a.now) }
{
    match set.first_missing(a) {
        Some(first) => first == i,
        None => false,
    }
}

/// Whether one of the sets is in the branch.
fn is_any_in_branch<const W: usize>(among: &[Bits<W>], a: &Bits<W>, i: u32) -> bool
    requires words { W ≤ 1024 }
    ensures { result ≡ list_any (λ X. stands_at i (first_missing 0 X a.now)) among.now }
{
    among.iter().any(
        |set: &Bits<W>| -> bool
            ensures { result ≡ stands_at i (first_missing 0 set.now a.entry.now) }
        { is_in_branch(set, a, i) },
    )
}
