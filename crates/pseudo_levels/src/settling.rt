//! The candidates that a level adds.

ghost use Rattle.std.specs.Prelude.{◌≡◌, [], ◌∷◌, OnOk, IfOk, length, map, filter, true, None, ◌==◌};
ghost use Rattle.std.specs.List.{list_all};
ghost use Rattle.fca_model.specs.Sets.{size, increasing};
ghost use Rattle.fca_model.specs.Context.{Context};
ghost use Rattle.fca_model.specs.Levels.{HasBelow};
ghost use Rattle.pseudo_levels.specs.Search.{judged, members_of, AreWide, Grows, LeadsAll, IsSettled, IsOpened};

use crate::{CandidateSets, MemberIndex};
use attr_bits::Attrs;
use fca_model::Memory;
use implication_closure::Implication;
use std::alloc::Global;

/// The members of the basis among the candidates of size k, by the answers for these. The other candidates of that size add larger ones.
pub fn settle_level(
    alloc: Global,
    candidates: &mut CandidateSets,
    found: &MemberIndex,
    sets: &[Attrs],
    answers: &[Option<Implication>],
    k: u32,
) -> Result<Vec<Implication>, Memory>
    requires wide { AreWide found.now.width candidates.old }
    requires sets { sets.now ≡ filter (λ X. size X == k) candidates.old }
    requires ordered { increasing sets.now ≡ true }
    requires answers { length answers.now ≡ length sets.now }

    ensures opened { (K : Context) → K.width ≡ found.now.width → HasBelow [] K k found.now.members → LeadsAll [] K k found.now.members candidates.old
        → answers.now ≡ map (judged [] K found.now.members) sets.now → IfOk result (λ members. IsOpened [] K k found.now.members members.items candidates.new) }
    ensures grows { Grows found.now.width candidates.old candidates.new }
{
    settle_all(candidates, found, sets, answers, k)?;
    members(alloc, answers)
}

/// The implications among the answers.
fn members(alloc: Global, answers: &[Option<Implication>]) -> Result<Vec<Implication>, Memory>
    ensures { IfOk result (λ members. members.items ≡ members_of answers.now) }
{
    Ok(answers.iter().filter_map(|answer| *answer).collect(alloc)?)
}

/// Adds the larger candidates that come of the sets of size k which are no members.
fn settle_all(
    candidates: &mut CandidateSets,
    found: &MemberIndex,
    sets: &[Attrs],
    answers: &[Option<Implication>],
    k: u32,
) -> Result<(), Memory>
    requires wide { AreWide found.now.width sets.now }
    requires sizes { list_all (λ X. size X == k) sets.now ≡ true }
    requires answers { length answers.now ≡ length sets.now }

    ensures settled { (K : Context) → K.width ≡ found.now.width → answers.now ≡ map (judged [] K found.now.members) sets.now
        → OnOk result (IsSettled [] K k found.now.members sets.now candidates.new) }
    ensures grows { Grows found.now.width candidates.old candidates.new }
{
    for i in 0..sets.len() {
        if answers[i].is_none() {
            settle(candidates, found, &sets[i])?;
        }
    }
    Ok(())
}

/// Adds the larger candidates that come of a set which is no member. If it breaks a member found, that is itself with the conclusion of the member. Otherwise it is
/// closed, and gets each further attribute.
fn settle(candidates: &mut CandidateSets, found: &MemberIndex, set: &Attrs) -> Result<(), Memory>
    requires wide { length set.now ≡ found.now.width }
    ensures settled { (K : Context) → K.width ≡ found.now.width → judged [] K found.now.members set.now ≡ None
        → OnOk result (IsSettled [] K (size set.now) found.now.members (set.now ∷ []) candidates.new) }
    ensures grows { Grows found.now.width candidates.old candidates.new }
{
    match found.broken_member(set) {
        Some(member) => candidates.add(set.join(&member.conclusion)),
        None => candidates.grow(set),
    }
}
