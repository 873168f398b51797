//! The sets among which the members of the basis are found.

ghost use Rattle.std.specs.Prelude.{◌≡◌, ℕ, ◌∷◌, [], OnOk, OnErr, IfOk, length, map, filter, replicate, false, true, ◌<◌, ◌≤◌, ◌^◌, ◌==◌};
ghost use Rattle.fca_model.specs.Sets.{Set, size, increasing};
ghost use Rattle.pseudo_levels.specs.BySize.{together, AreBySize};
ghost use Rattle.pseudo_levels.specs.Search.{AddsOnly, AreWide, Has, HasLarger, HaveLarger, IsLarger, Grows};

use attr_bits::Attrs;
use fca_model::{MAX_ATTRIBUTES, Memory};
use std::alloc::Global;
use std::collections::BTreeSet;
use std::marker::Model;

/// A growing collection of sets, each once, those of one size together.
#[derive(Drop)]
pub struct CandidateSets {
    alloc: Global,
    by_size: Vec<BTreeSet<Attrs>>,
}

impl Model for CandidateSets {
    ghost use Rattle.std.specs.Prelude.{List, map};
    ghost use Rattle.fca_model.specs.Sets.{Set};
    ghost use Rattle.pseudo_levels.specs.BySize.{together, AreBySize};

    ghost Value = { List Set };

    ghost view = { λ a. together (map (λ sets. sets.keys) a.by_size.items) };

    ghost invariant = { λ a. AreBySize (map (λ sets. sets.keys) a.by_size.items) };
}

impl CandidateSets {
    /// The empty set of width n alone.
    pub fn new(alloc: Global, n: u32) -> Result<CandidateSets, Memory>
        requires { n ≤ MAX_ATTRIBUTES }
        ensures { IfOk result (λ candidates. candidates ≡ replicate n false ∷ []) }
    {
        let mut none = BTreeSet::new(alloc);
        none.insert(Attrs::empty(n))?;
        let mut by_size = Vec::new(alloc);
        by_size.push(none)?;
        Ok(CandidateSets { alloc, by_size })
    }

    /// Puts the set among them.
    pub fn add(&mut self, set: Attrs) -> Result<(), Memory>
        ensures added { OnOk result (Has set self.new) }
        ensures only { AddsOnly (λ A. A ≡ set) self.old self.new }
        ensures err { OnErr result (self.new ≡ self.old) }
        ensures grows { Grows (length set) self.old self.new }
    {
        let size = set.size() as usize;
        make_room(self.alloc, &mut self.by_size, size)?;
        self.by_size[size].insert(set)?;
        Ok(())
    }

    /// Puts the set with each further attribute among them. If memory runs out, some of these sets are there, and all candidates before.
    pub fn grow(&mut self, set: &Attrs) -> Result<(), Memory>
        ensures grown { OnOk result (HasLarger set.now (length set.now) self.new) }
        ensures only { AddsOnly (IsLarger set.now) self.old self.new }
        ensures grows { Grows (length set.now) self.old self.new }
    {
        for i in 0..set.width() {
            if !set.has(i) {
                self.add(set.with(i))?;
            }
        }
        Ok(())
    }

    /// Puts each of the sets with each further attribute among them. If memory runs out, some of these sets are there, and all candidates before.
    pub fn grow_all(&mut self, sets: &[Attrs]) -> Result<(), Memory>
        ensures grown { OnOk result (HaveLarger sets.now self.new) }
        ensures only { AddsOnly (λ A. (C : Set) × Has C sets.now × IsLarger C A) self.old self.new }
        ensures grows { (n : ℕ) → AreWide n sets.now → Grows n self.old self.new }
    {
        for set in sets {
            self.grow(set)?;
        }
        Ok(())
    }

    /// Those of size k, in lectic order.
    pub fn of_size(&self, alloc: Global, k: u32) -> Result<Vec<Attrs>, Memory>
        ensures sets { IfOk result (λ sets. sets.items ≡ filter (λ X. size X == k) self.now) }
        ensures ordered { IfOk result (λ sets. increasing sets.items ≡ true) }
    {
        let place = k as usize;
        if place < self.by_size.len() {
            in_order(alloc, &self.by_size[place])
        } else {
            Ok(Vec::new(alloc))
        }
    }
}

/// Appends empty trees until there is one for the size.
fn make_room(alloc: Global, by_size: &mut Vec<BTreeSet<Attrs>>, size: usize) -> Result<(), Memory>
    requires { size < 2 ^ 32 }
    ensures room { OnOk result (size < length by_size.new.items) }
    ensures by_size { AreBySize (map (λ sets. sets.keys) by_size.old.items) → AreBySize (map (λ sets. sets.keys) by_size.new.items) }
    ensures same { together (map (λ sets. sets.keys) by_size.new.items) ≡ together (map (λ sets. sets.keys) by_size.old.items) }
{
    for _ in by_size.len()..size + 1 {
        by_size.push(BTreeSet::new(alloc))?;
    }
    Ok(())
}

/// The sets in lectic order.
fn in_order(alloc: Global, sets: &BTreeSet<Attrs>) -> Result<Vec<Attrs>, Memory>
    ensures sets { IfOk result (λ all. all.items ≡ sets.now.keys) }
    ensures ordered { IfOk result (λ all. increasing all.items ≡ true) }
{
    let _count = sets.len();
    Ok(sets.iter().copied().collect(alloc)?)
}
