//! The Duquenne-Guigues basis level by level: the pseudo-intents of one size are found among candidates, and each set of that size adds larger candidates.
//! Nothing lists all sets.
#![tactic(auto)]

mod candidates;
mod judging;
pub mod laws;
mod member_index;
mod settling;

ghost use Rattle.std.specs.Prelude.{◌≡◌, ℕ, [], IfOk, OnOk, map};
ghost use Rattle.fca_model.specs.Levels.{by_size, HasBelow};
ghost use Rattle.pseudo_levels.specs.LeastBasis.{IsLeastBasis};
ghost use Rattle.pseudo_levels.specs.Search.{AreWide, Grows, HaveLarger, IsOpened, LeadsAll};

use attr_bits::Attrs;
pub use candidates::CandidateSets;
use derivation::Rows;
use fca_model::Memory;
use implication_closure::{Implication, ImplicationList};
use judging::judge_in_threads;
pub use judging::{judge_all, level};
pub use member_index::MemberIndex;
pub use settling::settle_level;
use std::alloc::Global;
use std::thread::Threads;

/// The members of the basis, by size of the premise and then in lectic order of it.
pub fn basis_by_levels<R: Threads + Sync>(
    rt: &R,
    alloc: Global,
    rows: &Rows,
) -> Result<ImplicationList, Memory>
    ensures members { IfOk result (λ basis. basis ≡ record { width = rows.now.width; members = by_size [] rows.now }) }
    ensures least { IfOk result (λ basis. IsLeastBasis rows.now basis.members) }
{
    let mut found = MemberIndex::new(alloc, rows.width())?;
    let mut candidates = CandidateSets::new(alloc, rows.width())?;
    for size in 0..rows.width() + 1 {
        let members = next_members(rt, alloc, rows, &found, &mut candidates, size)?;
        grow_by(alloc, &mut candidates, &members)?;
        found.extend_from_slice(&members)?;
    }
    Ok(found.into_list())
}

/// The members of the basis of this size. The other candidates of the size add larger ones.
fn next_members<R: Threads + Sync>(
    rt: &R,
    alloc: Global,
    rows: &Rows,
    found: &MemberIndex,
    candidates: &mut CandidateSets,
    size: u32,
) -> Result<Vec<Implication>, Memory>
    requires width { found.now.width ≡ rows.now.width }
    requires wide { AreWide found.now.width candidates.old }
    ensures opened { HasBelow [] rows.now size found.now.members → LeadsAll [] rows.now size found.now.members candidates.old
        → IfOk result (λ members. IsOpened [] rows.now size found.now.members members.items candidates.new) }
    ensures grows { OnOk result (Grows found.now.width candidates.old candidates.new) }
{
    let sets = candidates.of_size(alloc, size)?;
    let answers = judge_in_threads(rt, alloc, rows, found, &sets)?;
    settle_level(alloc, candidates, found, &sets, &answers, size)
}

/// Makes each conclusion with one further attribute a candidate.
fn grow_by(
    alloc: Global,
    candidates: &mut CandidateSets,
    members: &[Implication],
) -> Result<(), Memory>
    ensures grown { OnOk result (HaveLarger (map (λ i. i.conclusion) members.now) candidates.new) }
    ensures grows { OnOk result ((n : ℕ) → AreWide n (map (λ i. i.conclusion) members.now) → Grows n candidates.old candidates.new) }
{
    let closures = conclusions(alloc, members)?;
    candidates.grow_all(&closures)
}

/// The conclusion of each implication.
fn conclusions(alloc: Global, members: &[Implication]) -> Result<Vec<Attrs>, Memory>
    ensures { IfOk result (λ conclusions. conclusions.items ≡ map (λ i. i.conclusion) members.now) }
{
    Ok(members.iter().map(|i| i.conclusion).collect(alloc)?)
}
