//! Witnesses of closures that fail: those that a step of the walk notes, beside those that were passed down to it.

ghost use Rattle.std.specs.Prelude.{◌≡◌};
ghost use Rattle.lectic_concepts.specs.Branches.{AreWitnesses};

use crate::cross_table::CrossTable;
use attr_bits::Bits;
use fca_model::Memory;

/// Begins the notes with the witnesses passed down, if nothing is noted yet.
pub(crate) fn begin_notes<const W: usize>(
    crosses: &CrossTable<'_, W>,
    a: &Bits<W>,
    passed: &[u32],
    noted: &mut Vec<u32>,
) -> Result<(), Memory>
    requires passed { AreWitnesses crosses.now a.now passed.now }
    requires noted { AreWitnesses crosses.now a.now noted.old.items }
    ensures { AreWitnesses crosses.now a.now noted.new.items }
{
    if noted.is_empty() {
        noted.extend_from_slice(passed)?;
    }
    Ok(())
}

/// The witnesses known of the closures of a: those noted, if any, and else those passed down.
pub fn known_witnesses<'a, const W: usize>(
    crosses: &CrossTable<'_, W>,
    a: &Bits<W>,
    passed: &'a [u32],
    noted: &'a Vec<u32>,
) -> &'a [u32]
    requires passed { AreWitnesses crosses.now a.now passed.now }
    requires noted { AreWitnesses crosses.now a.now noted.now.items }
    ensures { AreWitnesses crosses.now a.now result.now }
{
    if noted.is_empty() { passed } else { noted }
}
