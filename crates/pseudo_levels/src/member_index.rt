//! The members found so far, by the first two attributes of their premises.

ghost use Rattle.std.specs.Prelude.{◌≡◌, ℕ, suc, ◌+◌, ◌*◌, ◌<◌, ◌≤◌, ◌++◌, ◌∷◌, [], true, false, map, length, OnOk, OnErr, IfOk, IfSome};
ghost use Rattle.std.specs.Prelude.{MatchOption, slice_index_or, find};
ghost use Rattle.fca_model.specs.Implications.{Rule};
ghost use Rattle.fca_model.specs.Levels.{absorbs_all};
ghost use Rattle.implication_closure.specs.Closing.{RuleList, HaveWidth};
ghost use Rattle.pseudo_levels.specs.Index.{HasTaken, IsBroken, IsBrokenIn, IsPut, breaks_below, bucket, meets};

use attr_bits::Attrs;
use fca_model::{MAX_ATTRIBUTES, Memory};
use implication_closure::{Implication, ImplicationList};
use std::alloc::Global;
use std::marker::Model;

/// A list of implications. Each is also in the bucket of the first two attributes of its premise. A set can break only members whose two attributes it has, so no
/// other bucket is searched.
#[derive(Drop)]
pub struct MemberIndex {
    alloc: Global,
    list: ImplicationList,
    buckets: Vec<Vec<Implication>>,
}

impl Model for MemberIndex {
    ghost use Rattle.std.specs.Prelude.{map};
    ghost use Rattle.implication_closure.specs.Closing.{RuleList};
    ghost use Rattle.pseudo_levels.specs.Index.{IsFiled};

    ghost Value = { RuleList };

    ghost view = { λ a. a.list };

    ghost invariant = { λ a. IsFiled a.list.width a.list.members (map (λ v. v.items) a.buckets.items) };
}

impl MemberIndex {
    /// The index of no implications, between sets of width n.
    pub fn new(alloc: Global, n: u32) -> Result<MemberIndex, Memory>
        requires { n ≤ MAX_ATTRIBUTES }
        ensures { IfOk result (λ index. index ≡ record { width = n; members = [] }) }
    {
        Ok(MemberIndex {
            alloc,
            list: ImplicationList::new(alloc, n)?,
            buckets: Vec::new(alloc),
        })
    }

    /// The index of the implications of the list.
    pub fn of(alloc: Global, list: &ImplicationList) -> Result<MemberIndex, Memory>
        ensures { IfOk result (λ index. index ≡ list.now) }
    {
        let mut index = MemberIndex::new(alloc, list.width())?;
        index.extend_from_slice(list.as_slice())?;
        Ok(index)
    }

    /// Puts the implication last.
    pub fn push(&mut self, i: Implication) -> Result<(), Memory>
        requires premise { length i.premise ≡ self.old.width }
        requires conclusion { length i.conclusion ≡ self.old.width }
        ensures ok { OnOk result (self.new ≡ record self.old { members = self.old.members ++ i ∷ [] }) }
        ensures err { OnErr result (self.new ≡ self.old) }
    {
        self.list.push(i)?;
        match file(self.alloc, &mut self.buckets, &i) {
            Ok(()) => Ok(()),
            Err(error) => {
                self.list.pop();
                Err(error)
            }
        }
    }

    /// Puts the implications last. If memory runs out, the first of them may be there.
    pub fn extend_from_slice(&mut self, more: &[Implication]) -> Result<(), Memory>
        requires { HaveWidth self.old.width more.now }
        ensures ok { OnOk result (self.new ≡ record self.old { members = self.old.members ++ more.now }) }
        ensures err { OnErr result (HasTaken self.old more.now self.new) }
        ensures width { self.new.width ≡ self.old.width }
    {
        for i in more {
            self.push(*i)?;
        }
        Ok(())
    }

    /// The implications, in the order in which they were pushed.
    pub fn into_list(self) -> ImplicationList
        ensures { result ≡ self }
    {
        self.list
    }

    /// A member whose premise lies strictly within the set and whose conclusion does not.
    pub fn broken_member(&self, set: &Attrs) -> Option<Implication>
        ensures broken { MatchOption result (absorbs_all self.now.members set.now ≡ true) (λ i. IsBroken self.now.members set.now i) }
        ensures wide { IfSome result (λ i. length i.conclusion ≡ self.now.width) }
    {
        let width = self.list.width();
        if let Some(i) = search_bucket(&self.buckets, 0, set) {
            return Some(i);
        }
        search_pairs(&self.buckets, width, set)
    }
}

/// Puts the implication into a bucket whose attributes its premise has.
fn file(alloc: Global, buckets: &mut Vec<Vec<Implication>>, i: &Implication) -> Result<(), Memory>
    ensures ok { OnOk result (IsPut (length i.now.premise) (map (λ v. v.items) buckets.old.items) (map (λ v. v.items) buckets.new.items) i.now) }
    ensures err { OnErr result ((s : ℕ) → bucket s (map (λ v. v.items) buckets.new.items) ≡ bucket s (map (λ v. v.items) buckets.old.items)) }
{
    let place = bucket_of(&i.premise);
    make_room(alloc, buckets, place)?;
    buckets[place].push(*i)?;
    Ok(())
}

/// Appends empty buckets until there is one at the place.
fn make_room(alloc: Global, buckets: &mut Vec<Vec<Implication>>, place: usize) -> Result<(), Memory>
    requires { place ≤ MAX_ATTRIBUTES * MAX_ATTRIBUTES }
    ensures room { OnOk result (place < length buckets.new.items) }
    ensures same { (s : ℕ) → bucket s (map (λ v. v.items) buckets.new.items) ≡ bucket s (map (λ v. v.items) buckets.old.items) }
{
    for _ in buckets.len()..place + 1 {
        buckets.push(Vec::new(alloc))?;
    }
    Ok(())
}

/// The bucket of the first two attributes of a premise. If it has one attribute alone, that counts twice.
fn bucket_of(premise: &Attrs) -> usize
    ensures met { meets (length premise.now) result premise.now ≡ true }
    ensures in_range { result ≤ MAX_ATTRIBUTES * MAX_ATTRIBUTES }
{
    let width = premise.width();
    let Some(first) = premise.next_member(0) else {
        return 0;
    };
    match premise.next_member(first + 1) {
        Some(second) => bucket_of_pair(width, first, second),
        None => bucket_of_pair(width, first, first),
    }
}

/// The bucket of two attributes of this many.
fn bucket_of_pair(width: u32, first: u32, second: u32) -> usize
    ensures { result ≡ suc (first * width + second) }
{
    first as usize * width as usize + second as usize + 1
}

/// An implication that the set breaks, of a bucket of two of its attributes.
fn search_pairs(buckets: &[Vec<Implication>], width: u32, set: &Attrs) -> Option<Implication>
    ensures { MatchOption result
        ((a b : ℕ) → a ≤ b → slice_index_or set.now a false ≡ true → slice_index_or set.now b false ≡ true
        → absorbs_all (bucket (suc (a * width + b)) (map (λ v. v.items) buckets.now)) set.now ≡ true)
        (λ i. IsBrokenIn (map (λ v. v.items) buckets.now) set.now i) }
{
    let _width = set.width();
    let mut from = 0;
    while let Some(first) = set.next_member(from) {
        if let Some(i) = search_first(buckets, width, first, set) {
            return Some(i);
        }
        from = first + 1;
    }
    None
}

/// An implication that the set breaks, of a bucket of this attribute and a later one.
fn search_first(
    buckets: &[Vec<Implication>],
    width: u32,
    first: u32,
    set: &Attrs,
) -> Option<Implication>
    requires { first < length set.now }
    ensures { MatchOption result
        ((b : ℕ) → first ≤ b → slice_index_or set.now b false ≡ true
        → absorbs_all (bucket (suc (first * width + b)) (map (λ v. v.items) buckets.now)) set.now ≡ true)
        (λ i. IsBrokenIn (map (λ v. v.items) buckets.now) set.now i) }
{
    let _width = set.width();
    let mut from = first;
    while let Some(second) = set.next_member(from) {
        if let Some(i) = search_bucket(buckets, bucket_of_pair(width, first, second), set) {
            return Some(i);
        }
        from = second + 1;
    }
    None
}

/// The first implication of a bucket that the set breaks.
fn search_bucket(buckets: &[Vec<Implication>], place: usize, set: &Attrs) -> Option<Implication>
    ensures { result ≡ find (breaks_below set.now) (bucket place (map (λ v. v.items) buckets.now)) }
{
    if place < buckets.len() {
        first_broken_below(&buckets[place], set)
    } else {
        None
    }
}

/// The first implication that the set breaks.
fn first_broken_below(members: &[Implication], set: &Attrs) -> Option<Implication>
    ensures { result ≡ find (breaks_below set.now) members.now }
{
    members.iter().copied().find(|i| {
        i.premise.within(set) && !i.conclusion.within(set) && i.premise != *set
    })
}
