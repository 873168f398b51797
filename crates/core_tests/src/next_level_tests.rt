//! The level of the basis at which the nominal scale of three has its members.

use crate::tables::nominal_rows;
use attr_bits::Attrs;
use fca_model::{Implication, Memory};
use implication_closure::ImplicationList;
use next_level::next_level;
use std::rt::HostRuntime;

#[test]
fn pairs_are_the_first_level(rt: HostRuntime) -> Result<(), Memory> {
    let rules = ImplicationList::new(rt.alloc(), 3)?;
    let level = next_level(rt.alloc(), &nominal_rows(rt.alloc())?, &rules)?;
    let conclusion = Attrs::full(3);
    let pairs = [
        conclusion.without(0),
        conclusion.without(1),
        conclusion.without(2),
    ];
    let members = pairs.map(|premise| Implication {
        premise,
        conclusion,
    });
    assert!(&rt; level.members.as_slice() == members.as_slice());
    Ok(())
}
