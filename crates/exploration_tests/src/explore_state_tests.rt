//! What no whole call shows: turns for which room was reserved, and an exploration whose one question is known.

ghost use Rattle.std.specs.Prelude.{◌≡◌};

use crate::tables::{bare_table, opened};
use attr_bits::Attrs;
use explore_state::{Explore, Implication, Reply};
use fca_model::Memory;
use implication_closure::ImplicationList;
use std::alloc::Global;
use std::rt::HostRuntime;
use std::test::Fail;

#[test]
fn room_is_reserved(rt: HostRuntime) -> Result<(), Memory> {
    let mut explore = opened(rt.alloc(), 1)?;
    explore.reserve(2)?;
    let replies = [explore.draw(1)?, explore.confirm(1)?];
    assert!(rt; matches!(replies, [Reply::Ask(_), Reply::Accepted(0)]));
    Ok(())
}

/// The exploration of the table by one expert, who knows that every object has all attributes.
fn opened_known(alloc: Global) -> Result<Explore, Memory> {
    let mut known = ImplicationList::new(alloc, 2)?;
    known.push(Implication {
        premise: Attrs::empty(2),
        conclusion: Attrs::full(2),
    })?;
    match Explore::open_known(alloc, bare_table(alloc)?, 1, known) {
        Ok(explore) => Ok(explore),
        Err(_) => Err(Memory),
    }
}

#[test]
fn what_is_known_is_not_asked(rt: HostRuntime) -> Result<(), Memory> {
    let explore = opened_known(rt.alloc())?;
    assert!(rt; explore.open_questions().is_empty());
    assert_eq!(rt; explore.known().len(), 1);
    Ok(())
}
