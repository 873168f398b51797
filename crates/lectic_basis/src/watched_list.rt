//! A list of implications, each of which may wait for an attribute of its premise.

ghost use Rattle.std.specs.Prelude.{◌≡◌, ◌≢◌, ◌<◌, ◌≤◌, ◌*◌, ◌++◌, ◌∷◌, [], ℕ, true, length, map, OnOk, IfOk, IfSome};
ghost use Rattle.fca_model.specs.Exploration.{first_missing};
ghost use Rattle.fca_model.specs.Implications.{respects_all};
ghost use Rattle.implication_closure.specs.Closing.{HaveWidth};
ghost use Rattle.lectic_basis.specs.Watches.{bucket, member_at, waiting_at, IsFiled, IsGood, IsMoved, IsPut, IsPutBefore};

use attr_bits::{Attrs, Bits};
use fca_model::{Implication, Memory};
use implication_closure::{ImplicationList, ImplicationListOf};
use std::alloc::Global;
use std::marker::Model;

/// The list, and for each attribute the places of the members that wait for it.
#[derive(Drop)]
pub struct WatchedList<const W: usize> {
    list: ImplicationListOf<W>,
    buckets: Vec<Vec<usize>>,
}

impl<const W: usize> Model for WatchedList<W> {
    ghost use Rattle.std.specs.Prelude.{◌≤◌, map};
    ghost use Rattle.lectic_basis.specs.Watches.{Watched, member_at};
    ghost use Rattle.lectic_basis.specs.Entries.{HaveEntries};

    ghost Value = { Watched };

    ghost view = { λ a. record { list = a.list; buckets = map (map (member_at a.list.members)) (map (λ v. v.items) a.buckets.items) } };

    ghost invariant = { λ a. record { words : W ≤ 1024; entries : HaveEntries a.list.members (map (λ v. v.items) a.buckets.items) } };
}

impl<const W: usize> WatchedList<W> {
    /// The implications of the list. Each waits for an attribute outside x, or has its conclusion within x.
    pub fn of(alloc: Global, list: &ImplicationList, x: &Attrs) -> Result<WatchedList<W>, Memory>
        requires words { W ≤ 1024 }
        requires fits { list.now.width ≤ 64 * W }
        requires wide { length x.now ≡ list.now.width }
        requires respecting { respects_all list.now.members x.now ≡ true }
        ensures list { IfOk result (λ watched. watched.list ≡ list.now) }
        ensures filed { IfOk result (λ watched. IsFiled list.now.width list.now.members watched.buckets) }
        ensures good { IfOk result (λ watched. IsGood list.now.members watched.buckets x.now) }
    {
        let narrow = list.resize::<W>(alloc)?;
        WatchedList::of_narrow(alloc, narrow, &x.resize())
    }

    /// The implications of a list in W words. Each waits for an attribute outside x, or has its conclusion within x.
    pub fn of_narrow(
        alloc: Global,
        list: ImplicationListOf<W>,
        x: &Bits<W>,
    ) -> Result<WatchedList<W>, Memory>
        requires wide { length x.now ≡ list.width }
        requires respecting { respects_all list.members x.now ≡ true }
        ensures list { IfOk result (λ watched. watched.list ≡ list.entry) }
        ensures filed { IfOk result (λ watched. IsFiled list.entry.width list.entry.members watched.buckets) }
        ensures good { IfOk result (λ watched. IsGood list.entry.members watched.buckets x.now) }
    {
        let count = list.as_slice().len();
        let mut watched = WatchedList::new(alloc, list)?;
        for place in 0..count {
            if let Some(z) = watched.first_missing_at(place, x) {
                watched.wait_for(place, z)?;
            }
        }
        Ok(watched)
    }

    /// The implications of the list. None waits.
    fn new(alloc: Global, list: ImplicationListOf<W>) -> Result<WatchedList<W>, Memory>
        ensures list { IfOk result (λ watched. watched.list ≡ list.entry) }
        ensures room { IfOk result (λ watched. length watched.buckets ≡ list.entry.width) }
        ensures empty { IfOk result (λ watched. (z : ℕ) → bucket z watched.buckets ≡ []) }
    {
        let buckets = empty_buckets(alloc, list.width())?;
        Ok(WatchedList { list, buckets })
    }

    /// The least attribute of the premise of the member at the place that x lacks.
    fn first_missing_at(&self, place: usize, x: &Bits<W>) -> Option<u32>
        requires { place < length self.now.list.members }
        ensures missing { result ≡ first_missing 0 (member_at self.now.list.members place).premise x.now }
        ensures inside { IfSome result (λ z. z < self.now.list.width) }
    {
        self.list.as_slice()[place].premise.first_missing(x)
    }

    /// The number of attributes.
    pub fn width(&self) -> u32
        ensures width { result ≡ self.now.list.width }
        ensures even { HaveWidth self.now.list.width self.now.list.members }
        ensures words { W ≤ 1024 }
    {
        self.list.width()
    }

    /// The list alone.
    pub(crate) fn into_list(self) -> ImplicationListOf<W>
        ensures { result ≡ self.entry.list }
    {
        self.list
    }

    /// How many members wait for attribute z.
    pub(crate) fn count(&self, z: u32) -> usize
        requires { z < length self.now.buckets }
        ensures { result ≡ length (bucket z self.now.buckets) }
    {
        self.buckets[z as usize].len()
    }

    /// The premise at place k of the bucket of attribute z.
    pub(crate) fn premise(&self, z: u32, k: usize) -> Bits<W>
        requires inside { z < length self.now.buckets }
        requires there { k < length (bucket z self.now.buckets) }
        ensures { result ≡ (waiting_at z k self.now.buckets).premise }
    {
        self.waiting_member(z, k).premise
    }

    /// The conclusion at place k of the bucket of attribute z.
    pub(crate) fn conclusion(&self, z: u32, k: usize) -> Bits<W>
        requires inside { z < length self.now.buckets }
        requires there { k < length (bucket z self.now.buckets) }
        ensures { result ≡ (waiting_at z k self.now.buckets).conclusion }
    {
        self.waiting_member(z, k).conclusion
    }

    /// The member at place k of the bucket of attribute z.
    fn waiting_member(&self, z: u32, k: usize) -> &Implication<Bits<W>>
        requires inside { z < length self.now.buckets }
        requires there { k < length (bucket z self.now.buckets) }
        ensures { result.now ≡ waiting_at z k self.now.buckets }
    {
        let place = self.buckets[z as usize][k];
        &self.list.as_slice()[place]
    }

    /// Moves the member at place k of bucket z to another bucket.
    pub(crate) fn move_to(&mut self, z: u32, k: usize, other: u32) -> Result<(), Memory>
        requires inside { z < length self.old.buckets }
        requires other_inside { other < length self.old.buckets }
        requires there { k < length (bucket z self.old.buckets) }
        requires elsewhere { other ≢ z }
        ensures list { self.new.list ≡ self.old.list }
        ensures moved { OnOk result (IsMoved self.old.buckets self.new.buckets z k other (waiting_at z k self.old.buckets)) }
    {
        let place = self.buckets[z as usize][k];
        self.buckets[other as usize].push(place)?;
        self.buckets[z as usize].swap_remove(k);
        Ok(())
    }

    /// Puts the implication last; it waits for the attribute before `from`, if there is one.
    pub fn push_to_wait(&mut self, member: Implication<Bits<W>>, from: u32) -> Result<(), Memory>
        requires premise { length member.premise ≡ self.old.list.width }
        requires conclusion { length member.conclusion ≡ self.old.list.width }
        requires inside { from ≤ length self.old.buckets }
        ensures list { OnOk result (self.new.list ≡ record { width = self.old.list.width; members = self.old.list.members ++ member.entry ∷ [] }) }
        ensures put { OnOk result (IsPutBefore from self.old.buckets self.new.buckets member.entry) }
    {
        let place = self.list.as_slice().len();
        self.push(member)?;
        if from == 0 {
            return Ok(());
        }
        self.wait_for(place, from - 1)
    }

    /// Puts the implication last. It does not wait.
    fn push(&mut self, member: Implication<Bits<W>>) -> Result<(), Memory>
        requires premise { length member.premise ≡ self.old.list.width }
        requires conclusion { length member.conclusion ≡ self.old.list.width }
        ensures list { OnOk result (self.new.list ≡ record { width = self.old.list.width; members = self.old.list.members ++ member.entry ∷ [] }) }
        ensures buckets { OnOk result (self.new.buckets ≡ self.old.buckets) }
    {
        self.list.push(member)?;
        Ok(())
    }

    /// Has the member at the place wait for attribute z.
    fn wait_for(&mut self, place: usize, z: u32) -> Result<(), Memory>
        requires there { place < length self.old.list.members }
        requires inside { z < length self.old.buckets }
        ensures list { self.new.list ≡ self.old.list }
        ensures put { OnOk result (IsPut self.old.buckets self.new.buckets z (member_at self.old.list.members place)) }
    {
        self.buckets[z as usize].push(place)?;
        Ok(())
    }
}

/// As many empty buckets.
fn empty_buckets(alloc: Global, n: u32) -> Result<Vec<Vec<usize>>, Memory>
    ensures room { IfOk result (λ buckets. length buckets.items ≡ n) }
    ensures empty { IfOk result (λ buckets. (z : ℕ) → bucket z (map (λ v. v.items) buckets.items) ≡ []) }
{
    let mut buckets = Vec::new(alloc);
    for _ in 0..n {
        buckets.push(Vec::new(alloc))?;
    }
    Ok(buckets)
}
