//! Implications that are known of a table beforehand: those of a file, which every row of the table respects.

ghost use Rattle.std.specs.Prelude.{◌≡◌, ◌≤◌, ◌∷◌, ℕ, List, IfOk, IfErr, OnOk, Some, None, option_copied, option_to_list, length};
ghost use Rattle.std.specs.Option.{option_map};
ghost use Rattle.fca_model.specs.declared.TheConstants.{MAX_ATTRIBUTES, FILE_BYTES};
ghost use Rattle.fca_io.specs.Faults.{Rose, RoseAtMost, one_more};
ghost use Rattle.implication_closure.specs.Closing.{HaveWidth};
ghost use Rattle.explore_state.specs.Faults.{first_break};
ghost use Rattle.expert_scripts.specs.Known.{known_form};
ghost use Rattle.command_io.specs.Readings.{formed, MayRead, MayRefuse, Rises, SameCounts};
ghost use Rattle.command_io.specs.Causes.{UnlessReadFault};
ghost use Rattle.command_io.specs.Known.{implications_read, known_file_read, known_read, start_of, start_read, IsBreakStop};
ghost use Rattle.command_io.specs.Known.{IsImplicationsStop, IsKnownFileStop, IsKnownStop, IsStartStop};
ghost use Rattle.command_io.specs.Endings.{IsRefusal};

use crate::fetch::fetch_file;
use crate::readings::load_table;
use crate::stop::{Origin, Stop};
use context_table::Table;
use expert_scripts::{KnownFault, read_known};
use explore_state::first_break;
use fca_io::Shelf;
use fca_model::Word;
use implication_closure::ImplicationList;
use std::alloc::Global;

/// What an exploration starts from: a table, and the implications that are known of it.
#[derive(Drop)]
pub struct Start {
    pub table: Table,
    pub known: ImplicationList,
}

/// Reads the table in the file, and the implications of the known file, if one is given.
pub fn load_start<H: Shelf>(
    alloc: Global,
    shelf: &mut H,
    file: &Word,
    known_file: Option<&Word>,
) -> Result<Start, Stop>
    ensures start { IfOk result (λ start. MayRead (start_read file.now (option_copied known_file.entry) (H.tells shelf.old)) (start_of start)) }
    ensures width { IfOk result (λ start. start.known.width ≡ start.table.context.width) }
    ensures even { IfOk result (λ start. HaveWidth start.table.context.width start.known.members) }
    ensures respected { IfOk result (λ start. first_break start.known.members 0 start.table.context.rows ≡ None) }
    ensures refused { IfErr result (λ stop. IsRefusal stop → MayRefuse (start_read file.now (option_copied known_file.entry) (H.tells shelf.old))) }
    ensures cause { IfErr result (IsStartStop file.now (option_copied known_file.entry) (H.tells shelf.old) (Rises (H.faults shelf.old) (H.faults shelf.new))) }
    ensures quiet { UnlessReadFault result (SameCounts (H.faults shelf.old) (H.faults shelf.new)) }
    ensures few { RoseAtMost (H.fetches shelf.old) (H.fetches shelf.new) (length (file.now ∷ option_to_list (option_copied known_file.entry))) }
    ensures kept { (other : List ℕ) → H.tells shelf.new other ≡ H.tells shelf.old other }
    ensures only_rise { (other : List ℕ) → H.faults shelf.old other ≤ H.faults shelf.new other }
{
    let table = load_table(alloc, shelf, file, Origin::File)?;
    let known = load_known(alloc, shelf, known_file, &table)?;
    Ok(Start { table, known })
}

/// Reads the implications of the known file, if one is given, and checks that every row of the table respects them.
fn load_known<H: Shelf>(
    alloc: Global,
    shelf: &mut H,
    known_file: Option<&Word>,
    table: &Table,
) -> Result<ImplicationList, Stop>
    ensures known { IfOk result (λ list. MayRead (known_read (option_copied known_file.entry) table.now (H.tells shelf.old)) list.members) }
    ensures width { IfOk result (λ list. list.width ≡ table.now.context.width) }
    ensures even { IfOk result (λ list. HaveWidth table.now.context.width list.members) }
    ensures respected { IfOk result (λ list. first_break list.members 0 table.now.context.rows ≡ None) }
    ensures refused { IfErr result (λ stop. IsRefusal stop → MayRefuse (known_read (option_copied known_file.entry) table.now (H.tells shelf.old))) }
    ensures cause { IfErr result (IsKnownStop (option_copied known_file.entry) table.now (H.tells shelf.old) (Rises (H.faults shelf.old) (H.faults shelf.new))) }
    ensures quiet { UnlessReadFault result (SameCounts (H.faults shelf.old) (H.faults shelf.new)) }
    ensures few { RoseAtMost (H.fetches shelf.old) (H.fetches shelf.new) (length (option_to_list (option_copied known_file.entry))) }
    ensures kept { (other : List ℕ) → H.tells shelf.new other ≡ H.tells shelf.old other }
    ensures only_rise { (other : List ℕ) → H.faults shelf.old other ≤ H.faults shelf.new other }
{
    match known_file {
        Some(file) => load_known_file(alloc, shelf, file, table),
        None => Ok(ImplicationList::new(alloc, table.rows().width())?),
    }
}

/// Reads the implications of the file, and checks that every row of the table respects them.
fn load_known_file<H: Shelf>(
    alloc: Global,
    shelf: &mut H,
    file: &Word,
    table: &Table,
) -> Result<ImplicationList, Stop>
    ensures known { IfOk result (λ list. MayRead (known_file_read table.now (H.tells shelf.old file.now)) list.members) }
    ensures width { IfOk result (λ list. list.width ≡ table.now.context.width) }
    ensures even { IfOk result (λ list. HaveWidth table.now.context.width list.members) }
    ensures respected { IfOk result (λ list. first_break list.members 0 table.now.context.rows ≡ None) }
    ensures refused { IfErr result (λ stop. IsRefusal stop → MayRefuse (known_file_read table.now (H.tells shelf.old file.now))) }
    ensures cause { IfErr result (IsKnownFileStop table.now (H.tells shelf.old file.now)
        (Rose (H.faults shelf.old file.now) (H.faults shelf.new file.now))) }
    ensures quiet { UnlessReadFault result (SameCounts (H.faults shelf.old) (H.faults shelf.new)) }
    ensures counted { H.fetches shelf.new ≡ option_map one_more (H.fetches shelf.old) }
    ensures kept { (other : List ℕ) → H.tells shelf.new other ≡ H.tells shelf.old other }
    ensures only_rise { (other : List ℕ) → H.faults shelf.old other ≤ H.faults shelf.new other }
{
    let list = load_implications(alloc, shelf, file, table.rows().width())?;
    check_known(table, &list, Origin::File)?;
    let _members = list.as_slice();
    Ok(list)
}

/// Reads the implications of the file, between sets of width n.
fn load_implications<H: Shelf>(
    alloc: Global,
    shelf: &mut H,
    file: &Word,
    n: u32,
) -> Result<ImplicationList, Stop>
    requires { n ≤ MAX_ATTRIBUTES }
    ensures known { IfOk result (λ list. MayRead (implications_read n (H.tells shelf.old file.now)) list.members) }
    ensures width { IfOk result (λ list. list.width ≡ n) }
    ensures refused { IfErr result (λ stop. IsRefusal stop → MayRefuse (implications_read n (H.tells shelf.old file.now))) }
    ensures cause { IfErr result (IsImplicationsStop n (H.tells shelf.old file.now)
        (Rose (H.faults shelf.old file.now) (H.faults shelf.new file.now))) }
    ensures quiet { UnlessReadFault result (SameCounts (H.faults shelf.old) (H.faults shelf.new)) }
    ensures counted { H.fetches shelf.new ≡ option_map one_more (H.fetches shelf.old) }
    ensures kept { (other : List ℕ) → H.tells shelf.new other ≡ H.tells shelf.old other }
    ensures only_rise { (other : List ℕ) → H.faults shelf.old other ≤ H.faults shelf.new other }
{
    let bytes = fetch_file(alloc, shelf, file, Origin::Known)?;
    implications_of(alloc, &bytes, n)
}

/// Reads the implications of the bytes, between sets of width n.
fn implications_of(alloc: Global, bytes: &[u8], n: u32) -> Result<ImplicationList, Stop>
    requires width { n ≤ MAX_ATTRIBUTES }
    requires within { length bytes.now ≤ FILE_BYTES }
    ensures known { IfOk result (λ list. MayRead (formed (known_form bytes.now n)) list.members) }
    ensures width { IfOk result (λ list. list.width ≡ n) }
    ensures refused { IfErr result (λ stop. IsRefusal stop → MayRefuse (formed (known_form bytes.now n))) }
    ensures cause { IfErr result (IsImplicationsStop n (Some (Some bytes.now)) ⊥) }
{
    match read_known(alloc, bytes, n) {
        Ok(list) => Ok(list),
        Err(KnownFault::Memory) => Err(Stop::Memory),
        Err(fault) => Err(Stop::NoKnown(fault)),
    }
}

/// Checks that every row of the table respects the known implications. A stop names the origin.
pub fn check_known(table: &Table, known: &ImplicationList, origin: Origin) -> Result<(), Stop>
    ensures respected { OnOk result (first_break known.now.members 0 table.now.context.rows ≡ None) }
    ensures broken { IfErr result (IsBreakStop known.now.members table.now origin) }
{
    match first_break(table.rows().as_slice(), known) {
        Some((row, index)) => Err(Stop::RowBreaks(origin, row, index)),
        None => Ok(()),
    }
}
