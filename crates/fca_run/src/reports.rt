//! The commands that report on one table: its concepts, its lattice, its bases, whether an implication holds, its arrows, and the table
//! itself, whole or reduced.

ghost use Rattle.std.specs.Prelude.{◌≡◌, ◌⊎◌, true, false, Some, IfOk, IfErr, length, is_some};
ghost use Rattle.std.specs.Option.{option_map};
ghost use Rattle.fca_command.specs.Commands.{report_file};
ghost use Rattle.command_io.specs.Readings.{then, MayRead, MayRefuse, Rises, SameCounts};
ghost use Rattle.command_io.specs.Readings.Reading.{Refused, Read};
ghost use Rattle.fca_io.specs.Faults.{Rose, one_more};
ghost use Rattle.command_io.specs.Causes.{UnlessReadFault, IsFileStop};
ghost use Rattle.command_io.specs.Forms.{table_read};
ghost use Rattle.command_io.specs.Endings.{finished, IsRefusal};
ghost use Rattle.fca_run.specs.Reports.{attributes_read, table_concepts_text, table_basis_text, table_direct_text, verdict_read};
ghost use Rattle.fca_run.specs.Reports.{converted_text, reduced_text, table_arrows_text, table_report, reads_narrow, report_output};
ghost use Rattle.fca_run.specs.Causes.{IsReportStop};

use attr_bits::Attrs;
use basis_report::{direct_text, verdict_text};
use canonical_basis::basis;
use command_io::{Ending, Origin, Output, Stop, load_narrow_table, load_table};
use context_reduce::{arrows, arrows_text, irreducible, part};
use context_table::{NarrowTable, Table};
use csv_context::write_csv;
use cxt_format::write_cxt;
use direct_basis::proper_premises;
use fca_command::{Command, Form, attribute_set};
use fca_io::Shelf;
use fca_model::{Memory, Word};
use json_reports::{basis_json, concepts_json};
use lectic_concepts::all_concepts;
use std::alloc::Global;
use std::thread::Threads;
use table_texts::{narrow_basis_text, narrow_concepts_text, narrow_lattice_text};

/// Reads the table in the file, and makes the text that the command reports of it.
pub fn report_output<R: Threads + Sync, H: Shelf>(
    rt: &R,
    alloc: Global,
    command: &Command,
    shelf: &mut H,
    file: &Word,
) -> Result<Output, Stop>
    requires { report_file command.now ≡ Some file.now }
    ensures output { IfOk result (λ output. MayRead (report_output command.now file.now (H.tells shelf.old)) output) }
    ensures finished { IfOk result (λ output. output.ending ≡ Ending.Finished) }
    ensures refused { IfErr result (λ stop. IsRefusal stop → MayRefuse (report_output command.now file.now (H.tells shelf.old))) }
    ensures cause { IfErr result (IsReportStop command.now file.now (H.tells shelf.old file.now)
        (Rises (H.faults shelf.old) (H.faults shelf.new) file.now)) }
    ensures quiet { UnlessReadFault result (SameCounts (H.faults shelf.old) (H.faults shelf.new)) }
    ensures counted { H.fetches shelf.new ≡ option_map one_more (H.fetches shelf.old) }
{
    match command {
        Command::Concepts { json: false, .. }
        | Command::Lattice { .. }
        | Command::Basis { json: false, .. } => narrow_output(rt, alloc, command, shelf, file),
        _ => table_output(rt, alloc, command, shelf, file),
    }
}

/// Reads the table in the file with rows as narrow as it is, and makes the text that the command reports of it.
fn narrow_output<R: Threads + Sync, H: Shelf>(
    rt: &R,
    alloc: Global,
    command: &Command,
    shelf: &mut H,
    file: &Word,
) -> Result<Output, Stop>
    requires { reads_narrow command.now ≡ true }
    ensures output { IfOk result (λ output. MayRead (report_output command.now file.now (H.tells shelf.old)) output) }
    ensures finished { IfOk result (λ output. output.ending ≡ Ending.Finished) }
    ensures refused { IfErr result (λ stop. IsRefusal stop → MayRefuse (table_read file.now (H.tells shelf.old file.now))) }
    ensures cause { IfErr result (IsFileStop file.now (H.tells shelf.old file.now)
        (Rose (H.faults shelf.old file.now) (H.faults shelf.new file.now)) Origin.File) }
    ensures quiet { UnlessReadFault result (SameCounts (H.faults shelf.old) (H.faults shelf.new)) }
    ensures counted { H.fetches shelf.new ≡ option_map one_more (H.fetches shelf.old) }
{
    let table = load_narrow_table(alloc, shelf, file, Origin::File)?;
    Ok(narrow_report(rt, alloc, command, table)?)
}

/// Makes the text that the command reports of the narrow table.
fn narrow_report<R: Threads + Sync>(
    rt: &R,
    alloc: Global,
    command: &Command,
    table: NarrowTable,
) -> Result<Output, Memory>
    requires { reads_narrow command.now ≡ true }
    ensures output { IfOk result (λ output. MayRead (then (table_report command.now table) (λ text. Read (finished text))) output) }
    ensures finished { IfOk result (λ output. output.ending ≡ Ending.Finished) }
{
    match command {
        Command::Concepts { .. } => Ok(Output::of_concepts(narrow_concepts_text(
            rt, alloc, table,
        )?)),
        Command::Lattice { .. } => Ok(Output::of_text(narrow_lattice_text(alloc, table)?)),
        Command::Basis { .. } => Ok(Output::of_text(narrow_basis_text(alloc, table)?)),
        // (no other command reads a narrow table)
        _ => unreachable!(),
    }
}

/// Reads the whole table in the file, and makes the text that the command reports of it.
fn table_output<R: Threads + Sync, H: Shelf>(
    rt: &R,
    alloc: Global,
    command: &Command,
    shelf: &mut H,
    file: &Word,
) -> Result<Output, Stop>
    requires reports { is_some (report_file command.now) ≡ true }
    requires whole { reads_narrow command.now ≡ false }
    ensures output { IfOk result (λ output. MayRead (report_output command.now file.now (H.tells shelf.old)) output) }
    ensures finished { IfOk result (λ output. output.ending ≡ Ending.Finished) }
    ensures refused { IfErr result (λ stop. IsRefusal stop → MayRefuse (report_output command.now file.now (H.tells shelf.old))) }
    ensures cause { IfErr result (IsReportStop command.now file.now (H.tells shelf.old file.now)
        (Rises (H.faults shelf.old) (H.faults shelf.new) file.now)) }
    ensures quiet { UnlessReadFault result (SameCounts (H.faults shelf.old) (H.faults shelf.new)) }
    ensures counted { H.fetches shelf.new ≡ option_map one_more (H.fetches shelf.old) }
{
    let table = load_table(alloc, shelf, file, Origin::File)?;
    report_on(rt, alloc, command, &table)
}

/// Makes the text that the command reports of the table.
fn report_on<R: Threads + Sync>(
    rt: &R,
    alloc: Global,
    command: &Command,
    table: &Table,
) -> Result<Output, Stop>
    requires reports { is_some (report_file command.now) ≡ true }
    requires whole { reads_narrow command.now ≡ false }
    ensures output { IfOk result (λ output. MayRead (then (table_report command.now table.now) (λ text. Read (finished text))) output) }
    ensures finished { IfOk result (λ output. output.ending ≡ Ending.Finished) }
    ensures refused { IfErr result (λ stop. IsRefusal stop → MayRefuse (table_report command.now table.now)) }
    ensures cause { IfErr result (λ stop. (stop ≡ Stop.Memory) ⊎ ((stop ≡ Stop.UnknownAttribute) × (table_report command.now table.now ≡ Refused))) }
{
    match command {
        Command::Concepts { json: true, .. } => Ok(Output::of_text(json_concepts(alloc, table)?)),
        Command::Basis { json: true, .. } => Ok(Output::of_text(json_basis(rt, alloc, table)?)),
        Command::Direct { .. } => Ok(Output::of_text(table_direct_text(alloc, table)?)),
        Command::Follows {
            premise,
            conclusion,
            ..
        } => Ok(Output::of_text(verdict(rt, alloc, table, premise, conclusion)?)),
        Command::Convert { to, .. } => Ok(Output::of_text(converted_text(alloc, *to, table)?)),
        Command::Reduce { .. } => Ok(Output::of_text(reduced_text(alloc, table)?)),
        Command::Arrows { .. } => Ok(Output::of_text(table_arrows_text(alloc, table)?)),
        // (`reports`, `whole`: the others write no report, or read a narrow table)
        _ => unreachable!(),
    }
}

/// The concepts of the table, as JSON.
fn json_concepts(alloc: Global, table: &Table) -> Result<Vec<u8>, Memory>
    ensures { IfOk result (λ text. text.items ≡ table_concepts_text true table.now) }
{
    let concepts = all_concepts(alloc, table.rows())?;
    concepts_json(alloc, table, &concepts)
}

/// The basis of the table, as JSON.
fn json_basis<R: Threads + Sync>(rt: &R, alloc: Global, table: &Table) -> Result<Vec<u8>, Memory>
    ensures { IfOk result (λ text. text.items ≡ table_basis_text true table.now) }
{
    let basis = basis(rt, alloc, table.rows())?;
    basis_json(alloc, table, &basis)
}

/// The direct basis of the table.
fn table_direct_text(alloc: Global, table: &Table) -> Result<Vec<u8>, Memory>
    ensures { IfOk result (λ text. text.items ≡ table_direct_text table.now) }
{
    let list = proper_premises(alloc, table.rows())?;
    direct_text(alloc, table, &list)
}

/// The text that says whether the implication between the attributes of the two words holds.
fn verdict<R: Threads + Sync>(
    rt: &R,
    alloc: Global,
    table: &Table,
    premise: &Word,
    conclusion: &Word,
) -> Result<Vec<u8>, Stop>
    ensures output { IfOk result (λ text. MayRead (verdict_read premise.now conclusion.now table.now) text.items) }
    ensures refused { IfErr result (λ stop. IsRefusal stop → MayRefuse (verdict_read premise.now conclusion.now table.now)) }
    ensures cause { IfErr result (λ stop. (stop ≡ Stop.Memory) ⊎ ((stop ≡ Stop.UnknownAttribute) × (verdict_read premise.now conclusion.now table.now ≡ Refused))) }
{
    let premise = attributes_in(table, premise)?;
    let conclusion = attributes_in(table, conclusion)?;
    Ok(verdict_text(rt, alloc, table, &premise, &conclusion)?)
}

/// The attributes of the table that the word names.
fn attributes_in(table: &Table, word: &Word) -> Result<Attrs, Stop>
    ensures attributes { IfOk result (λ set. attributes_read table.now word.now ≡ Read set) }
    ensures wide { IfOk result (λ set. length set ≡ table.now.context.width) }
    ensures refused { IfErr result (λ stop. attributes_read table.now word.now ≡ Refused) }
    ensures cause { IfErr result (λ stop. stop ≡ Stop.UnknownAttribute) }
{
    match attribute_set(table, word.bytes()) {
        Some(set) => Ok(set),
        None => Err(Stop::UnknownAttribute),
    }
}

/// The text of the table in this form.
fn converted_text(alloc: Global, to: Form, table: &Table) -> Result<Vec<u8>, Memory>
    ensures { IfOk result (λ text. text.items ≡ converted_text to table.now) }
{
    match to {
        Form::Cxt => write_cxt(alloc, table),
        Form::Csv => write_csv(alloc, table),
    }
}

/// The text of the table of the irreducible objects and attributes, in the Burmeister form.
fn reduced_text(alloc: Global, table: &Table) -> Result<Vec<u8>, Memory>
    ensures { IfOk result (λ text. text.items ≡ reduced_text table.now) }
{
    let kept = irreducible(alloc, table)?;
    let reduced = part(alloc, table, &kept)?;
    write_cxt(alloc, &reduced)
}

/// The arrows between the objects and the attributes of the table.
fn table_arrows_text(alloc: Global, table: &Table) -> Result<Vec<u8>, Memory>
    ensures { IfOk result (λ text. text.items ≡ table_arrows_text table.now) }
{
    let arrows = arrows(alloc, table)?;
    arrows_text(alloc, table, &arrows)
}
