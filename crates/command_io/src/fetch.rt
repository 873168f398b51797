//! Fetches files.

ghost use Rattle.std.specs.Prelude.{◌≡◌, ◌≤◌, ℕ, List, IfOk, IfErr, vec_len};
ghost use Rattle.std.specs.Option.{option_map};
ghost use Rattle.fca_model.specs.declared.TheConstants.{FILE_BYTES};
ghost use Rattle.fca_io.specs.Faults.{Rose, one_more};
ghost use Rattle.fca_io.specs.Shelves.{MayHold};
ghost use Rattle.command_io.specs.Readings.{SameCounts};
ghost use Rattle.command_io.specs.Causes.{UnlessReadFault, IsFetchStop, taken_stop};

use crate::stop::{Origin, Stop};
use fca_io::{Shelf, Taken};
use fca_model::{FILE_BYTES, Word};
use std::alloc::Global;

/// Fetches the bytes of the file. A stop names the origin.
pub(crate) fn fetch_file<H: Shelf>(
    alloc: Global,
    shelf: &mut H,
    file: &Word,
    origin: Origin,
) -> Result<Vec<u8>, Stop>
    ensures bytes { IfOk result (λ v. MayHold (H.tells shelf.old file.now) v.items) }
    ensures within { IfOk result (λ v. vec_len v ≤ FILE_BYTES) }
    ensures cause { IfErr result (IsFetchStop (H.tells shelf.old file.now)
        (Rose (H.faults shelf.old file.now) (H.faults shelf.new file.now)) origin) }
    ensures quiet { UnlessReadFault result (SameCounts (H.faults shelf.old) (H.faults shelf.new)) }
    ensures counted { H.fetches shelf.new ≡ option_map one_more (H.fetches shelf.old) }
    ensures kept { (other : List ℕ) → H.tells shelf.new other ≡ H.tells shelf.old other }
    ensures only_rise { (other : List ℕ) → H.faults shelf.old other ≤ H.faults shelf.new other }
{
    match shelf.fetch(alloc, file.bytes(), FILE_BYTES) {
        Ok(bytes) => Ok(bytes),
        Err(taken) => Err(taken_stop(taken, origin)),
    }
}

/// The stop for bytes of this origin that could not be read.
pub(crate) fn taken_stop(taken: Taken, origin: Origin) -> Stop
    ensures { result ≡ taken_stop taken origin }
{
    match taken {
        Taken::Failed => Stop::ReadFault(origin),
        Taken::Long => Stop::TooLong(origin),
        Taken::Memory => Stop::Memory,
    }
}
