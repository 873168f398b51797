//! Lists of implications between attribute sets, and the closure of a set under such a list: the
//! least superset that respects every member.
#![tactic(auto)]

ghost use Rattle.std.specs.Prelude.{◌≡◌, ◌≤◌, ◌*◌, ◌++◌, ◌∷◌, [], ◌↔◌, IsTrue, OnOk, OnErr, IfOk, length, position, filter, not};
ghost use Rattle.fca_model.specs.Implications.{Rule, respects, follows, rule};
ghost use Rattle.implication_closure.specs.Concerns.{concerns, concerning};
ghost use Rattle.implication_closure.specs.Closing.{RuleList, Room, Fits, IsClosure, HaveWidth, IsPass, Fired};

use attr_bits::{Bits, WORDS};
use fca_model::{MAX_ATTRIBUTES, Memory};
use std::alloc::Global;
use std::marker::Model;

/// An implication between attribute sets of any table.
pub type Implication = ImplicationOf<WORDS>;

/// An implication between attribute sets of W words.
pub type ImplicationOf<const W: usize> = fca_model::Implication<Bits<W>>;

/// An implication that an expert is asked to confirm or to refute.
pub type Question = Implication;

/// Implications between attribute sets of any table.
pub type ImplicationList = ImplicationListOf<WORDS>;

/// Implications of one width, in the order in which they were pushed, with sets of W words. W is at most 1,024, so that an implication is known to fit the
/// address space.
#[derive(Drop)]
pub struct ImplicationListOf<const W: usize> {
    members: Vec<ImplicationOf<W>>,
    width: u32,
}

impl<const W: usize> Model for ImplicationListOf<W> {
    ghost use Rattle.std.specs.Prelude.{◌≤◌};
    ghost use Rattle.fca_model.specs.declared.TheConstants.{MAX_ATTRIBUTES};
    ghost use Rattle.implication_closure.specs.Concerns.{concerns, concerning};
    ghost use Rattle.implication_closure.specs.Closing.{RuleList, HaveWidth};

    ghost Value = { RuleList };

    ghost view = { λ a. record { width = a.width; members = a.members.items } };

    ghost invariant = { λ a. record { words : W ≤ 1024; narrow : a.width ≤ MAX_ATTRIBUTES; even : HaveWidth a.width a.members.items } };
}

impl<const W: usize> ImplicationListOf<W> {
    /// The empty list of implications between sets of width n.
    pub fn new(alloc: Global, n: u32) -> Result<ImplicationListOf<W>, Memory>
        requires words { W ≤ 1024 }
        requires narrow { n ≤ MAX_ATTRIBUTES }
        ensures { IfOk result (λ list. list ≡ record { width = n; members = [] }) }
    {
        Ok(ImplicationListOf {
            members: Vec::new(alloc),
            width: n,
        })
    }

    /// A copy of the list, with room for one more implication.
    pub fn copy(&self, alloc: Global) -> Result<ImplicationListOf<W>, Memory>
        ensures { IfOk result (λ list. list ≡ self.now) }
    {
        let mut members = Vec::with_capacity(alloc, self.members.len().saturating_add(1))?;
        members.extend_from_slice(&self.members)?;
        Ok(ImplicationListOf {
            members,
            width: self.width,
        })
    }

    /// The list in V words.
    pub fn resize<const V: usize>(&self, alloc: Global) -> Result<ImplicationListOf<V>, Memory>
        requires fits { self.now.width ≤ 64 * V }
        requires words { V ≤ 1024 }
        ensures { IfOk result (λ list. list ≡ self.now) }
    {
        let width = self.width;
        Ok(ImplicationListOf {
            members: resize_implications(alloc, width, &self.members)?,
            width,
        })
    }

    /// Puts the implication last.
    pub fn push(&mut self, i: ImplicationOf<W>) -> Result<(), Memory>
        requires premise { length i.premise ≡ self.old.width }
        requires conclusion { length i.conclusion ≡ self.old.width }
        ensures ok { OnOk result (self.new ≡ record self.old { members = self.old.members ++ i.entry ∷ [] }) }
        ensures err { OnErr result (self.new ≡ self.old) }
    {
        self.members.push(i)?;
        Ok(())
    }

    /// Puts the implications last, all of them or none.
    pub fn extend_from_slice(&mut self, more: &[ImplicationOf<W>]) -> Result<(), Memory>
        requires { HaveWidth self.old.width more.now }
        ensures ok { OnOk result (self.new ≡ record self.old { members = self.old.members ++ more.now }) }
        ensures err { OnErr result (self.new ≡ self.old) }
    {
        self.members.extend_from_slice(more)?;
        Ok(())
    }

    /// Removes the last implication, if there is one.
    pub fn pop(&mut self)
        ensures last { (J : RuleList) (i : Rule) → self.old ≡ record { width = J.width; members = J.members ++ i ∷ [] } → self.new ≡ J }
        ensures none { self.old.members ≡ [] → self.new ≡ self.old }
    {
        self.members.pop();
    }

    /// The implications.
    pub fn as_slice(&self) -> &[ImplicationOf<W>]
        ensures members { result.now ≡ self.now.members }
        ensures even { HaveWidth self.now.width result.now }
        ensures words { W ≤ 1024 }
    {
        &self.members
    }

    /// The number of attributes.
    pub fn width(&self) -> u32
        ensures width { result ≡ self.now.width }
        ensures narrow { result ≤ MAX_ATTRIBUTES }
        ensures even { HaveWidth self.now.width self.now.members }
        ensures words { W ≤ 1024 }
    {
        self.width
    }

    /// The implications that concern the sets which agree with x before attribute `from`.
    pub fn concerning(
        &self,
        alloc: Global,
        x: &Bits<W>,
        from: u32,
    ) -> Result<ImplicationListOf<W>, Memory>
        ensures { IfOk result (λ list. list ≡ concerning from x.now self.now) }
    {
        let members = those_concerning(alloc, &self.members, from, x)?;
        Ok(ImplicationListOf {
            members,
            width: self.width,
        })
    }

    /// The place of the first member that the row does not respect.
    pub fn first_broken(&self, row: &Bits<W>) -> Option<usize>
        ensures { result ≡ position (λ i. not (respects row.now i)) self.now.members }
    {
        first_broken(&self.members, row)
    }

    /// The least superset of x that respects every member.
    pub fn naive_closure(&self, x: &Bits<W>) -> Bits<W>
        requires { length x.now ≡ self.now.width }
        ensures { IsClosure self.now.members x.now result }
    {
        close_from_the_first(&self.members, x)
    }

    /// The least superset of x that respects every member. It works in the scratch.
    pub fn closure(&self, scratch: &mut Scratch, x: &Bits<W>) -> Bits<W>
        requires fits { Fits scratch.old self.now }
        requires wide { length x.now ≡ self.now.width }
        ensures closure { IsClosure self.now.members x.now result }
        ensures scratch { scratch.new ≡ scratch.old }
    {
        close_by_counters(&self.members, &mut scratch.left, x)
    }

    /// Whether each set that respects all members respects the implication from p to c.
    pub fn follows(&self, p: &Bits<W>, c: &Bits<W>) -> bool
        requires premise { length p.now ≡ self.now.width }
        requires conclusion { length c.now ≡ self.now.width }
        ensures { result ≡ follows self.now.width self.now.members (rule p.now c.now) }
    {
        c.within(&self.naive_closure(p))
    }
}

/// Working space for closures under lists of one width: for each member the number of premise
/// attributes that were still missing when they were last counted.
#[derive(Drop)]
pub struct Scratch {
    width: u32,
    left: Vec<u32>,
}

impl Model for Scratch {
    ghost use Rattle.std.specs.Prelude.{length};
    ghost use Rattle.implication_closure.specs.Closing.{Room};

    ghost Value = { Room };

    ghost view = { λ a. record { width = a.width; members = length a.left.items } };
}

impl Scratch {
    /// Working space for closures under lists that have the width of this one and at most as many members.
    pub fn new<const W: usize>(
        alloc: Global,
        list: &ImplicationListOf<W>,
    ) -> Result<Scratch, Memory>
        ensures { IfOk result (λ scratch. Fits scratch list.now) }
    {
        Ok(Scratch {
            width: list.width,
            left: vec![in alloc; 0; list.members.len()]?,
        })
    }

    /// Whether the space is enough for closures under the list.
    pub fn fits<const W: usize>(&self, list: &ImplicationListOf<W>) -> bool
        ensures { IsTrue result ↔ Fits self.now list.now }
    {
        self.width == list.width && list.members.len() <= self.left.len()
    }
}

/// The implications in V words.
pub fn resize_implications<const W: usize, const V: usize>(
    alloc: Global,
    width: u32,
    implications: &[ImplicationOf<W>],
) -> Result<Vec<ImplicationOf<V>>, Memory>
    requires from_words { W ≤ 1024 }
    requires words { V ≤ 1024 }
    requires fits { width ≤ 64 * V }
    requires even { HaveWidth width implications.now }
    ensures { IfOk result (λ all. all.items ≡ implications.now) }
{
    let mut all = Vec::with_capacity(alloc, implications.len())?;
    for implication in implications {
        all.push(resize_implication(implication))?;
    }
    Ok(all)
}

/// The implication in V words.
fn resize_implication<const W: usize, const V: usize>(i: &ImplicationOf<W>) -> ImplicationOf<V>
    requires premise { length i.now.premise ≤ 64 * V }
    requires conclusion { length i.now.conclusion ≤ 64 * V }
    ensures { result ≡ i.now }
{
    fca_model::Implication {
        premise: i.premise.resize(),
        conclusion: i.conclusion.resize(),
    }
}

/// The implications whose premise has no attribute before `from` that x lacks.
fn those_concerning<const W: usize>(
    alloc: Global,
    implications: &[ImplicationOf<W>],
    from: u32,
    x: &Bits<W>,
) -> Result<Vec<ImplicationOf<W>>, Memory>
    requires words { W ≤ 1024 }
    ensures { IfOk result (λ kept. kept.items ≡ filter (concerns from x.now) implications.now) }
{
    Ok(
        implications
            .iter()
            .copied()
            .filter(
                |i: &ImplicationOf<W>| -> bool
                    ensures { result ≡ concerns from x.entry.now i.now }
                { concerns(from, x, i) },
            )
            .collect(alloc)?,
    )
}

/// Whether the premise has no attribute before `from` that x lacks.
fn concerns<const W: usize>(from: u32, x: &Bits<W>, i: &ImplicationOf<W>) -> bool
    ensures { result ≡ concerns from x.now i.now }
{
    match i.premise.first_missing(x) {
        Some(w) => from <= w,
        None => true,
    }
}

/// The place of the first member that the row does not respect.
fn first_broken<const W: usize>(members: &[ImplicationOf<W>], row: &Bits<W>) -> Option<usize>
    ensures { result ≡ position (λ i. not (respects row.now i)) members.now }
{
    members.iter().position(
        |i: &ImplicationOf<W>| -> bool
            ensures { result ≡ not (respects row.entry.now i.now) }
        { !respects(row, i) },
    )
}

/// Whether the row respects the implication.
fn respects<const W: usize>(row: &Bits<W>, i: &ImplicationOf<W>) -> bool
    ensures { result ≡ respects row.now i.now }
{
    !i.premise.within(row) || i.conclusion.within(row)
}

/// The least superset that respects every member. Each step takes the first member that the set does not respect.
fn close_from_the_first<const W: usize>(members: &[ImplicationOf<W>], x: &Bits<W>) -> Bits<W>
    requires { HaveWidth (length x.now) members.now }
    ensures { IsClosure members.now x.now result }
{
    let mut closed = *x;
    while let Some(i) = first_broken(members, &closed) {
        closed = closed.join(&members[i].conclusion);
    }
    closed
}

/// The least superset that respects every member. It passes over the members until a pass adds nothing.
fn close_by_counters<const W: usize>(
    members: &[ImplicationOf<W>],
    left: &mut [u32],
    x: &Bits<W>,
) -> Bits<W>
    requires wide { HaveWidth (length x.now) members.now }
    requires room { length members.now ≤ length left.old }
    ensures { IsClosure members.now x.now result }
{
    left.fill(1);
    let mut closed = *x;
    loop {
        let next = pass(members, left, &closed);
        if next == closed {
            return closed;
        }
        closed = next;
    }
}

/// The set after one pass: each member in turn whose premise lies within the set adds its conclusion.
/// Members that added theirs before are skipped.
fn pass<const W: usize>(members: &[ImplicationOf<W>], left: &mut [u32], x: &Bits<W>) -> Bits<W>
    requires wide { HaveWidth (length x.now) members.now }
    requires room { length members.now ≤ length left.old }
    requires fired { Fired left.old members.now x.now }
    ensures pass { IsPass members.now x.now result }
    ensures room { length left.new ≡ length left.old }
    ensures fired { Fired left.new members.now result }
{
    let mut closed = *x;
    for k in 0..members.len() {
        let i = &members[k];
        if left[k] != 0 {
            left[k] = i.premise.minus(&closed).size();
            if left[k] == 0 {
                closed = closed.join(&i.conclusion);
            }
        }
    }
    closed
}
