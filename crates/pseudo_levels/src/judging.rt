//! Which candidates are members of the basis, by the members of smaller size.

ghost use Rattle.std.specs.Prelude.{◌≡◌, [], IfOk, map};
ghost use Rattle.pseudo_levels.specs.Search.{judged};

use crate::MemberIndex;
use attr_bits::Attrs;
use derivation::Rows;
use fca_model::Memory;
use implication_closure::{Implication, ImplicationList};
use rayon::prelude::*;
use std::alloc::Global;
use std::thread::Threads;

/// The answer for each candidate, in their order. Several threads share the work.
pub fn level<R: Threads + Sync>(
    rt: &R,
    alloc: Global,
    rows: &Rows,
    smaller: &ImplicationList,
    candidates: &[Attrs],
) -> Result<Vec<Option<Implication>>, Memory>
    ensures { IfOk result (λ answers. answers.items ≡ map (judged [] rows.now smaller.now.members) candidates.now) }
{
    let smaller = MemberIndex::of(alloc, smaller)?;
    judge_in_threads(rt, alloc, rows, &smaller, candidates)
}

/// The answer for each candidate, in their order, by an index of the smaller members. Several threads share the work.
pub(crate) fn judge_in_threads<R: Threads + Sync>(
    rt: &R,
    alloc: Global,
    rows: &Rows,
    smaller: &MemberIndex,
    candidates: &[Attrs],
) -> Result<Vec<Option<Implication>>, Memory>
    ensures { IfOk result (λ answers. answers.items ≡ map (judged [] rows.now smaller.now.members) candidates.now) }
{
    let answers = candidates
        .par_iter()
        .map(
            |set: &Attrs| -> Option<Implication>
                ensures { result ≡ judged [] rows.entry.now smaller.entry.now.members set.now }
            { judge(rows, smaller, set) },
        )
        .with_min_len(1)
        .collect::<Vec<_>>(rt, alloc);
    match answers {
        Ok(answers) => Ok(answers),
        Err(_) => Err(Memory),
    }
}

/// The answer for each candidate, in their order, by this thread alone.
pub fn judge_all(
    alloc: Global,
    rows: &Rows,
    smaller: &MemberIndex,
    candidates: &[Attrs],
) -> Result<Vec<Option<Implication>>, Memory>
    ensures { IfOk result (λ answers. answers.items ≡ map (judged [] rows.now smaller.now.members) candidates.now) }
{
    Ok(
        candidates
            .iter()
            .map(|set| judge(rows, smaller, set))
            .collect(alloc)?,
    )
}

/// The implication of the set to its closure, if that is a member of the basis by the smaller ones.
pub(crate) fn judge(rows: &Rows, smaller: &MemberIndex, set: &Attrs) -> Option<Implication>
    ensures { result ≡ judged [] rows.now smaller.now.members set.now }
{
    if smaller.broken_member(set).is_some() {
        return None;
    }
    let closure = rows.closure(set);
    if closure == *set {
        return None;
    }
    Some(Implication {
        premise: *set,
        conclusion: closure,
    })
}
