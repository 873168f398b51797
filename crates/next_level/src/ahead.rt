//! Candidates for later levels.

ghost use Rattle.std.specs.Prelude.{◌≡◌, ◌≤◌, [], IfOk, true, false, filter, nat_lt};
ghost use Rattle.fca_model.specs.Implications.{premises};
ghost use Rattle.fca_model.specs.Sets.{size};
ghost use Rattle.implication_closure.specs.Closing.{HaveWidth};
ghost use Rattle.next_level.specs.Among.{IsRest};

use crate::open_sets::{OpenSets, of_larger_size};
use attr_bits::Bits;
use derivation::Rows;
use fca_model::{Implication, Memory};
use std::alloc::Global;

/// Sets kept for later levels. If `whole`, every set that will be open is one of them; otherwise there are none.
#[derive(Drop)]
pub struct Ahead {
    pub whole: bool,
    pub sets: Rows,
}

impl Ahead {
    /// No sets, of which nothing is known.
    pub fn none(alloc: Global, width: u32) -> Result<Ahead, Memory>
        requires { width ≤ 1024 }
        ensures { IfOk result (λ ahead. (ahead.whole ≡ false) × (ahead.sets ≡ record { width = width; rows = [] })) }
    {
        Ok(Ahead {
            whole: false,
            sets: Rows::new(alloc, width)?,
        })
    }
}

/// The larger ones among the open sets. None are kept if larger ones may be missing, if they are too many, or if memory runs out.
pub(crate) fn ahead_of<const W: usize>(
    alloc: Global,
    width: u32,
    seen: &OpenSets<W>,
    size: u32,
    most: usize,
) -> Result<Ahead, Memory>
    requires words { W ≤ 1024 }
    requires narrow { width ≤ 1024 }
    requires even { HaveWidth width seen.now.members.items }
    ensures rest { IfOk result (λ ahead. ahead.whole ≡ true → IsRest width seen.now.bound seen.now.members.items size ahead.sets.rows) }
    ensures wide { IfOk result (λ ahead. ahead.sets.width ≡ width) }
{
    if seen.bound < width {
        return Ahead::none(alloc, width);
    }
    match rest_of(alloc, width, &seen.members, size, most) {
        Ok(ahead) => Ok(ahead),
        Err(_) => Ahead::none(alloc, width),
    }
}

/// The larger premises, or none if they are too many.
fn rest_of<const W: usize>(
    alloc: Global,
    width: u32,
    members: &[Implication<Bits<W>>],
    premise_size: u32,
    most: usize,
) -> Result<Ahead, Memory>
    requires words { W ≤ 1024 }
    requires narrow { width ≤ 1024 }
    requires even { HaveWidth width members.now }
    ensures rest { IfOk result (λ ahead. ahead.whole ≡ true
        → ahead.sets ≡ record { width = width; rows = premises (filter (λ i. nat_lt premise_size (size i.premise)) members.now) }) }
    ensures wide { IfOk result (λ ahead. ahead.sets.width ≡ width) }
{
    let rest = of_larger_size(alloc, members, premise_size)?;
    if rest.len() > most {
        return Ahead::none(alloc, width);
    }
    let sets = premises_of(alloc, width, &rest)?;
    Ok(Ahead { whole: true, sets })
}

/// The premises, in all words.
fn premises_of<const W: usize>(
    alloc: Global,
    width: u32,
    members: &[Implication<Bits<W>>],
) -> Result<Rows, Memory>
    requires words { W ≤ 1024 }
    requires narrow { width ≤ 1024 }
    requires even { HaveWidth width members.now }
    ensures { IfOk result (λ sets. sets ≡ record { width = width; rows = premises members.now }) }
{
    let mut sets = Rows::new(alloc, width)?;
    for member in members {
        sets.push(member.premise.resize())?;
    }
    Ok(sets)
}
