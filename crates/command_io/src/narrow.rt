//! A file as a narrow table.

ghost use Rattle.std.specs.Prelude.{◌≡◌, ◌≤◌, ℕ, List, IfOk, IfErr, true, false};
ghost use Rattle.std.specs.Option.{option_map};
ghost use Rattle.fca_io.specs.Faults.{Rose, one_more};
ghost use Rattle.cxt_format.specs.Form.{cxt_form};
ghost use Rattle.csv_context.specs.Form.{csv_form};
ghost use Rattle.command_io.specs.Readings.{formed, MayRead, MayRefuse, SameCounts};
ghost use Rattle.command_io.specs.Forms.{is_csv, table_formed, table_read};
ghost use Rattle.command_io.specs.Untitled.{untitled_reading};
ghost use Rattle.command_io.specs.Causes.{UnlessReadFault, IsFormStop, IsFileStop};
ghost use Rattle.command_io.specs.Endings.{IsRefusal};

use crate::fetch::fetch_file;
use crate::readings::{csv_table, is_csv};
use crate::stop::{Origin, Stop};
use context_table::NarrowTable;
use cxt_format::{CxtFault, read_narrow_cxt};
use fca_io::Shelf;
use fca_model::Word;
use std::alloc::Global;

/// Reads the table in the file without its title. A stop names the origin, and the refusals are those of [`load_table`](crate::load_table).
pub fn load_narrow_table<H: Shelf>(
    alloc: Global,
    shelf: &mut H,
    file: &Word,
    origin: Origin,
) -> Result<NarrowTable, Stop>
    ensures table { IfOk result (λ table. MayRead (untitled_reading (table_read file.now (H.tells shelf.old file.now))) table) }
    ensures refused { IfErr result (λ stop. IsRefusal stop → MayRefuse (table_read file.now (H.tells shelf.old file.now))) }
    ensures cause { IfErr result (IsFileStop file.now (H.tells shelf.old file.now)
        (Rose (H.faults shelf.old file.now) (H.faults shelf.new file.now)) origin) }
    ensures quiet { UnlessReadFault result (SameCounts (H.faults shelf.old) (H.faults shelf.new)) }
    ensures counted { H.fetches shelf.new ≡ option_map one_more (H.fetches shelf.old) }
    ensures kept { (other : List ℕ) → H.tells shelf.new other ≡ H.tells shelf.old other }
    ensures only_rise { (other : List ℕ) → H.faults shelf.old other ≤ H.faults shelf.new other }
{
    let bytes = fetch_file(alloc, shelf, file, origin)?;
    narrow_table(alloc, &bytes, file.bytes(), origin)
}

/// Reads the narrow table in the bytes, in the form that the file's name says.
fn narrow_table(
    alloc: Global,
    bytes: &[u8],
    name: &[u8],
    origin: Origin,
) -> Result<NarrowTable, Stop>
    ensures table { IfOk result (λ table. MayRead (untitled_reading (table_formed name.now bytes.now)) table) }
    ensures refused { IfErr result (λ stop. IsRefusal stop → MayRefuse (table_formed name.now bytes.now)) }
    ensures cause { IfErr result (IsFormStop name.now origin bytes.now) }
{
    if is_csv(name) {
        narrow_csv_table(alloc, bytes, origin)
    } else {
        narrow_cxt_table(alloc, bytes, origin)
    }
}

/// Reads the narrow table in the bytes, in the CSV form.
fn narrow_csv_table(alloc: Global, bytes: &[u8], origin: Origin) -> Result<NarrowTable, Stop>
    ensures table { IfOk result (λ table. MayRead (untitled_reading (formed (csv_form bytes.now))) table) }
    ensures refused { IfErr result (λ stop. IsRefusal stop → MayRefuse (formed (csv_form bytes.now))) }
    ensures cause { (name : List ℕ) → is_csv name ≡ true → IfErr result (IsFormStop name origin bytes.now) }
{
    let table = csv_table(alloc, bytes, origin)?;
    match NarrowTable::of(alloc, table) {
        Ok(narrow) => Ok(narrow),
        Err(_) => Err(Stop::Memory),
    }
}

/// Reads the narrow table in the bytes, in the Burmeister form.
fn narrow_cxt_table(alloc: Global, bytes: &[u8], origin: Origin) -> Result<NarrowTable, Stop>
    ensures table { IfOk result (λ table. MayRead (untitled_reading (formed (cxt_form bytes.now))) table) }
    ensures refused { IfErr result (λ stop. IsRefusal stop → MayRefuse (formed (cxt_form bytes.now))) }
    ensures cause { (name : List ℕ) → is_csv name ≡ false → IfErr result (IsFormStop name origin bytes.now) }
{
    match read_narrow_cxt(alloc, bytes) {
        Ok(table) => Ok(table),
        Err(CxtFault::Memory) => Err(Stop::Memory),
        Err(fault) => Err(Stop::NoCxt(origin, fault)),
    }
}
