//! The settings of a replay: those of the script, or those of a known file.

ghost use Rattle.std.specs.Prelude.{◌≡◌, [], ℕ, IfOk, IfErr, OnOk, Some, None, option_copied};
ghost use Rattle.fca_model.specs.declared.TheConstants.{MAX_EXPERTS};
ghost use Rattle.implication_closure.specs.Closing.{HaveWidth};
ghost use Rattle.explore_state.specs.Faults.{first_break};
ghost use Rattle.exploration_terms.specs.Settings.{settings_of};
ghost use Rattle.expert_scripts.specs.Scripts.{content_of};
ghost use Rattle.expert_scripts.specs.Transcripts.{SettingsCanBeWritten};
ghost use Rattle.expert_scripts.specs.declared.fault.ScriptFault.TheVariants.{BadLine};
ghost use Rattle.command_io.specs.Readings.Reading.{Refused, Read};
ghost use Rattle.command_io.specs.Known.{IsBreakStop};
ghost use Rattle.command_io.specs.declared.stop.Origin.TheVariants.{Input};
ghost use Rattle.replay_command.specs.Replayed.{settings_read, MayOpenReplay, IsSettingsStop};

use command_io::{Origin, Stop, check_known};
use context_table::Table;
use expert_scripts::{Events, Script, ScriptFault};
use explore_state::{ExpertNames, Settings};
use fca_model::{MAX_EXPERTS, Word};
use implication_closure::ImplicationList;
use std::alloc::Global;

/// Chooses the settings of a replay: those of the script, or with a known file just its implications. The events are the script's.
pub fn choose_settings(
    alloc: Global,
    known_file: Option<&Word>,
    known: ImplicationList,
    table: &Table,
    script: Script,
) -> Result<(Settings, Events), Stop>
    requires width { known.width ≡ table.now.context.width }
    requires even { HaveWidth table.now.context.width known.members }
    requires respected { first_break known.members 0 table.now.context.rows ≡ None }
    requires script_width { script.settings.known.width ≡ table.now.context.width }
    requires writable { SettingsCanBeWritten table.now.context.width (settings_of script.settings) }
    ensures settings { IfOk result (λ s. settings_read (option_copied known_file.entry) known.members table.now (content_of script) ≡ Read (settings_of s.0)) }
    ensures events { IfOk result (λ s. s.1 ≡ script.events) }
    ensures may_open { IfOk result (λ s. MayOpenReplay table.now s.0) }
    ensures refused { IfErr result (λ _. settings_read (option_copied known_file.entry) known.members table.now (content_of script) ≡ Refused) }
    ensures cause { IfErr result (IsSettingsStop (option_copied known_file.entry) table.now (content_of script)) }
{
    let Script {
        settings,
        events,
        second,
    } = script;
    match known_file {
        Some(_) => Ok((settings_of_known(alloc, known, second)?, events)),
        None => Ok((check_settings(table, settings)?, events)),
    }
}

/// The settings of a known file: its implications, and nothing else. A script with a line `exploration 2` is refused.
fn settings_of_known(
    alloc: Global,
    known: ImplicationList,
    second: Option<usize>,
) -> Result<Settings, Stop>
    ensures settings { IfOk result (λ s. s ≡ record { known = known; holders = MAX_EXPERTS; names = [] }) }
    ensures first { OnOk result (second ≡ None) }
    ensures cause { IfErr result (λ stop. (line : ℕ) × (second ≡ Some line) × (stop ≡ Stop.NoScript (BadLine line))) }
{
    match second {
        Some(line) => Err(Stop::NoScript(ScriptFault::BadLine(line))),
        None => Ok(Settings {
            known,
            holders: MAX_EXPERTS,
            names: ExpertNames::new(alloc),
        }),
    }
}

/// Checks that every row of the table respects the implications of the settings, and gives the settings back.
fn check_settings(table: &Table, settings: Settings) -> Result<Settings, Stop>
    ensures settings { IfOk result (λ s. s ≡ settings) }
    ensures respected { OnOk result (first_break settings.known.members 0 table.now.context.rows ≡ None) }
    ensures cause { IfErr result (IsBreakStop settings.known.members table.now Input) }
{
    check_known(table, &settings.known, Origin::Input)?;
    Ok(settings)
}
