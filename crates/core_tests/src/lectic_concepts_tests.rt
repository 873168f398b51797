//! The intents of the nominal scale of three, by a walk whose steps are counted.

ghost use Rattle.std.specs.Prelude.{◌≡◌, ◌<◌};

use crate::tables::nominal_rows;
use attr_bits::Attrs;
use derivation::Rows;
use fca_io::Steps;
use fca_model::Memory;
use lectic_concepts::intents_counted;
use std::alloc::Global;
use std::marker::Brand;
use std::rt::HostRuntime;
use std::sync::ledger::{Blank, Ledger};

/// The intents, over a ledger of its own.
fn intents_over<L: Ledger>(alloc: Global, rows: &Rows, blank: Blank) -> Result<Vec<Attrs>, Memory>
    requires name { blank.name ≡ L.name }
    requires parts { blank.parts ≡ L.parts }
    requires some { 0 < blank.parts }
{
    let mut steps: Steps<L> = Steps::open(blank);
    intents_counted(alloc, rows, &mut steps)
}

#[test]
fn five_intents_are_counted(rt: HostRuntime) -> Result<(), Memory> {
    let rows = nominal_rows(rt.alloc())?;
    let intents = intents_over::<Brand>(rt.alloc(), &rows, Blank::new(1))?;
    let none = Attrs::empty(3);
    assert!(&rt;
        intents.as_slice()
            == [
                none,
                none.with(2),
                none.with(1),
                none.with(0),
                Attrs::full(3)
            ]
            .as_slice()
    );
    Ok(())
}
