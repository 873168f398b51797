//! Derivations: why an implication follows from a list.

ghost use Rattle.std.specs.Prelude.{◌≡◌, ◌↔◌, ℕ, List, true, false, IfOk, IfSome, IsNone, length};
ghost use Rattle.fca_model.specs.Implications.{follows, rule};
ghost use Rattle.implication_closure.specs.Closing.{HaveWidth};
ghost use Rattle.canonical_basis.specs.Derivations.{derivation, is_sound};

use attr_bits::Attrs;
use fca_model::Memory;
use implication_closure::{Implication, ImplicationList};
use std::alloc::Global;
use std::marker::Model;

/// Places in a list of implications, in the order in which they are used.
#[derive(Drop)]
pub struct Derivation {
    steps: Vec<usize>,
}

impl Model for Derivation {
    ghost use Rattle.std.specs.Prelude.{ℕ, List};

    ghost Value = { List ℕ };

    ghost view = { λ a. a.steps.items };
}

impl Derivation {
    /// These places, whether the derivation is sound or not.
    pub fn new(alloc: Global, steps: &[usize]) -> Result<Derivation, Memory>
        ensures { IfOk result (λ derivation. derivation ≡ steps.now) }
    {
        let steps = copy(alloc, steps)?;
        Ok(Derivation { steps })
    }

    /// The places.
    pub fn as_slice(&self) -> &[usize]
        ensures { result.now ≡ self.now }
    {
        &self.steps
    }
}

/// A copy of the places.
fn copy(alloc: Global, steps: &[usize]) -> Result<Vec<usize>, Memory>
    ensures { IfOk result (λ copy. copy.items ≡ steps.now) }
{
    Ok(steps.iter().copied().collect(alloc)?)
}

/// The derivation of the implication from p to c by the first member each time that adds something. There is none exactly if the implication does not follow.
pub fn derive(
    alloc: Global,
    list: &ImplicationList,
    p: &Attrs,
    c: &Attrs,
) -> Result<Option<Derivation>, Memory>
    requires premise { length p.now ≡ list.now.width }
    requires conclusion { length c.now ≡ list.now.width }
    ensures derivation { IfOk result (λ found. found ≡ derivation list.now p.now c.now) }
    ensures none { IfOk result (λ found. IsNone found ↔ (follows list.now.width list.now.members (rule p.now c.now) ≡ false)) }
    ensures sound { IfOk result (λ found. IfSome found (λ steps. is_sound list.now.members p.now c.now steps ≡ true)) }
{
    let members = list.as_slice();
    let mut steps = Vec::new(alloc);
    let mut reached = *p;
    while !c.within(&reached) {
        match list.first_broken(&reached) {
            Some(i) => {
                steps.push(i)?;
                reached = reached.join(&members[i].conclusion);
            }
            None => return Ok(None),
        }
    }
    Ok(Some(Derivation { steps }))
}

/// Whether the derivation of the implication from p to c is sound; then the implication follows.
pub fn check(list: &ImplicationList, p: &Attrs, c: &Attrs, derivation: &Derivation) -> bool
    requires premise { length p.now ≡ list.now.width }
    requires conclusion { length c.now ≡ list.now.width }
    ensures sound { result ≡ is_sound list.now.members p.now c.now derivation.now }
    ensures follows { result ≡ true → follows list.now.width list.now.members (rule p.now c.now) ≡ true }
{
    is_sound(list.as_slice(), p, c, &derivation.steps)
}

/// Whether each step may be taken, and c is reached.
fn is_sound(members: &[Implication], p: &Attrs, c: &Attrs, steps: &[usize]) -> bool
    requires { HaveWidth (length p.now) members.now }
    ensures { result ≡ is_sound members.now p.now c.now steps.now }
{
    let mut reached = *p;
    for &i in steps {
        if i >= members.len() || !members[i].premise.within(&reached) {
            return false;
        }
        reached = reached.join(&members[i].conclusion);
    }
    c.within(&reached)
}
