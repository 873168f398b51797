//! Reads a file as a table, and the input as a script.

ghost use Rattle.std.specs.Prelude.{◌≡◌, ◌≤◌, ◌+◌, ℕ, List, IfOk, IfErr, IsErrOf, OnOk, length, true, false, Some, Result};
ghost use Rattle.std.specs.List.{list_all};
ghost use Rattle.std.specs.Option.{option_map};
ghost use Rattle.std.specs.Io.KnownBytes.{IsAtEnd, Keeps};
ghost use Rattle.fca_model.specs.declared.TheConstants.{MAX_ATTRIBUTES, FILE_BYTES};
ghost use Rattle.fca_io.specs.Faults.{Rose, RoseAtMost, one_more};
ghost use Rattle.exploration_terms.specs.Settings.{settings_of};
ghost use Rattle.expert_scripts.specs.Scripts.{content_of, script_form, may_apply};
ghost use Rattle.expert_scripts.specs.Transcripts.{SettingsCanBeWritten};
ghost use Rattle.cxt_format.specs.Form.{cxt_form};
ghost use Rattle.csv_context.specs.Form.{csv_form};
ghost use Rattle.command_io.specs.Readings.{formed, MayRead, MayRefuse, SameCounts};
ghost use Rattle.command_io.specs.Forms.{is_csv, table_formed, table_read, script_read};
ghost use Rattle.command_io.specs.Causes.{UnlessReadFault, IsFormStop, IsFileStop, IsScriptStop};
ghost use Rattle.command_io.specs.Endings.{IsRefusal};

use crate::fetch::{fetch_file, taken_stop};
use crate::stop::{Origin, Stop};
use context_table::Table;
use csv_context::{CsvFault, read_csv};
use cxt_format::{CxtFault, read_cxt};
use expert_scripts::{Script, ScriptFault, read_script};
use fca_io::{Shelf, Source, read_all};
use fca_model::{FILE_BYTES, Word};
use std::alloc::Global;

/// Reads the table in the file. A stop names the origin.
pub fn load_table<H: Shelf>(
    alloc: Global,
    shelf: &mut H,
    file: &Word,
    origin: Origin,
) -> Result<Table, Stop>
    ensures table { IfOk result (λ table. MayRead (table_read file.now (H.tells shelf.old file.now)) table) }
    ensures refused { IfErr result (λ stop. IsRefusal stop → MayRefuse (table_read file.now (H.tells shelf.old file.now))) }
    ensures cause { IfErr result (IsFileStop file.now (H.tells shelf.old file.now)
        (Rose (H.faults shelf.old file.now) (H.faults shelf.new file.now)) origin) }
    ensures quiet { UnlessReadFault result (SameCounts (H.faults shelf.old) (H.faults shelf.new)) }
    ensures counted { H.fetches shelf.new ≡ option_map one_more (H.fetches shelf.old) }
    ensures kept { (other : List ℕ) → H.tells shelf.new other ≡ H.tells shelf.old other }
    ensures only_rise { (other : List ℕ) → H.faults shelf.old other ≤ H.faults shelf.new other }
{
    let bytes = fetch_file(alloc, shelf, file, origin)?;
    table_of(alloc, &bytes, file.bytes(), origin)
}

/// Reads the table in the bytes, in the form that the file's name says.
fn table_of(alloc: Global, bytes: &[u8], name: &[u8], origin: Origin) -> Result<Table, Stop>
    ensures table { IfOk result (λ table. MayRead (table_formed name.now bytes.now) table) }
    ensures refused { IfErr result (λ stop. IsRefusal stop → MayRefuse (table_formed name.now bytes.now)) }
    ensures cause { IfErr result (IsFormStop name.now origin bytes.now) }
{
    if is_csv(name) {
        csv_table(alloc, bytes, origin)
    } else {
        cxt_table(alloc, bytes, origin)
    }
}

/// Whether a file of this name is in the CSV form.
pub(crate) fn is_csv(name: &[u8]) -> bool
    ensures { result ≡ is_csv name.now }
{
    name.ends_with(b".csv")
}

/// Reads the table in the bytes, in the CSV form.
pub(crate) fn csv_table(alloc: Global, bytes: &[u8], origin: Origin) -> Result<Table, Stop>
    ensures table { IfOk result (λ table. MayRead (formed (csv_form bytes.now)) table) }
    ensures refused { IfErr result (λ stop. IsRefusal stop → MayRefuse (formed (csv_form bytes.now))) }
    ensures cause { (name : List ℕ) → is_csv name ≡ true → IfErr result (IsFormStop name origin bytes.now) }
{
    match read_csv(alloc, bytes) {
        Ok(table) => Ok(table),
        Err(CsvFault::Memory) => Err(Stop::Memory),
        Err(fault) => Err(Stop::NoCsv(origin, fault)),
    }
}

/// Reads the table in the bytes, in the Burmeister form.
fn cxt_table(alloc: Global, bytes: &[u8], origin: Origin) -> Result<Table, Stop>
    ensures table { IfOk result (λ table. MayRead (formed (cxt_form bytes.now)) table) }
    ensures refused { IfErr result (λ stop. IsRefusal stop → MayRefuse (formed (cxt_form bytes.now))) }
    ensures cause { (name : List ℕ) → is_csv name ≡ false → IfErr result (IsFormStop name origin bytes.now) }
{
    match read_cxt(alloc, bytes) {
        Ok(table) => Ok(table),
        Err(CxtFault::Memory) => Err(Stop::Memory),
        Err(fault) => Err(Stop::NoCxt(origin, fault)),
    }
}

/// Reads the script on the input, of a table of width n.
pub fn load_script<S: Source>(alloc: Global, input: &mut S, n: u32) -> Result<Script, Stop>
    requires { n ≤ MAX_ATTRIBUTES }
    ensures script { IfOk result (λ script. MayRead (script_read n (S.left input.old)) (content_of script)) }
    ensures width { IfOk result (λ script. script.settings.known.width ≡ n) }
    ensures writable { IfOk result (λ script. SettingsCanBeWritten n (settings_of script.settings)) }
    ensures fits { IfOk result (λ script. list_all (may_apply n) script.events ≡ true) }
    ensures refused { IfErr result (λ stop. IsRefusal stop → MayRefuse (script_read n (S.left input.old))) }
    ensures cause { IfErr result (IsScriptStop n (S.left input.old) (Rose (S.faults input.old) (S.faults input.new))) }
    ensures quiet { UnlessReadFault result (S.faults input.new ≡ S.faults input.old) }
    ensures only_rise { S.faults input.old ≤ S.faults input.new }

    ensures end { OnOk result (IsAtEnd (S.left input.new)) }
    ensures refused_whole { (fault : ScriptFault) → IsErrOf result (Stop.NoScript fault) → IsAtEnd (S.left input.new) }
    ensures few { RoseAtMost (S.reads input.old) (S.reads input.new) (FILE_BYTES + 1) }
    ensures beside { Keeps (S.beside input.old) (S.beside input.new) }
    ensures same_beside { S.faults_beside input.new ≡ S.faults_beside input.old }
{
    let bytes = match read_all(alloc, input, FILE_BYTES) {
        Ok(bytes) => bytes,
        Err(taken) => return Err(taken_stop(taken, Origin::Input)),
    };
    script_of(alloc, &bytes, n)
}

/// Reads the script in the bytes.
fn script_of(alloc: Global, bytes: &[u8], n: u32) -> Result<Script, Stop>
    requires width { n ≤ MAX_ATTRIBUTES }
    requires within { length bytes.now ≤ FILE_BYTES }
    ensures script { IfOk result (λ script. MayRead (formed (script_form bytes.now n)) (content_of script)) }
    ensures width { IfOk result (λ script. script.settings.known.width ≡ n) }
    ensures writable { IfOk result (λ script. SettingsCanBeWritten n (settings_of script.settings)) }
    ensures fits { IfOk result (λ script. list_all (may_apply n) script.events ≡ true) }
    ensures refused { IfErr result (λ stop. IsRefusal stop → MayRefuse (formed (script_form bytes.now n))) }
    ensures cause { IfErr result (IsScriptStop n (Some bytes.now) ⊥) }
{
    match read_script(alloc, bytes, n) {
        Ok(script) => Ok(script),
        Err(ScriptFault::Memory) => Err(Stop::Memory),
        Err(fault) => Err(Stop::NoScript(fault)),
    }
}
