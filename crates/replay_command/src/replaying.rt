//! The exploration that a script records.

ghost use Rattle.std.specs.Prelude.{◌≡◌, ◌∷◌, IfOk, IfErr, OnOk, true, None, option_copied, option_to_list, length};
ghost use Rattle.std.specs.List.{list_all};
ghost use Rattle.std.specs.Io.KnownBytes.{IsAtEnd};
ghost use Rattle.fca_io.specs.Faults.{Rose, RoseAtMost};
ghost use Rattle.implication_closure.specs.Closing.{HaveWidth};
ghost use Rattle.explore_state.specs.Faults.{first_break};
ghost use Rattle.exploration_terms.specs.Settings.{settings_of};
ghost use Rattle.expert_scripts.specs.Scripts.{may_apply};
ghost use Rattle.expert_scripts.specs.Transcripts.{SettingsCanBeWritten};
ghost use Rattle.command_io.specs.Readings.{MayRead, MayRefuse, Rises, SameCounts};
ghost use Rattle.command_io.specs.Causes.{UnlessReadFault};
ghost use Rattle.command_io.specs.Known.{start_of};
ghost use Rattle.command_io.specs.Explorations.{IsExplored, exploration_of};
ghost use Rattle.command_io.specs.Endings.{IsRefusal, IsOfFile};
ghost use Rattle.replay_command.specs.Replayed.{exploration_by, exploration_read, replay_read, replay_output, exploration_output};
ghost use Rattle.replay_command.specs.Replayed.{SpellsItself, MayReplay, IsInputStop, IsReplayStop};

use crate::settings::choose_settings;
use basis_report::explore_text;
use command_io::{Ending, Output, Start, Stop, Text, load_script, load_start};
use context_table::Table;
use explore_state::{Event, Explore, Settings};
use fca_io::{Shelf, Source};
use fca_model::{MAX_EXPERTS, Memory, Word};
use std::alloc::Global;

/// Explores the table in the file by the script on the input, and gives the text. A known file may be given. The input is read after the
/// files.
pub fn replay<H: Shelf, S: Source>(
    alloc: Global,
    shelf: &mut H,
    input: &mut S,
    file: &Word,
    known_file: Option<&Word>,
) -> Result<Output, Stop>
    ensures output { IfOk result (λ output. MayRead (replay_output file.now (option_copied known_file.entry) (H.tells shelf.old) (S.left input.old)) output) }
    ensures replayed { IfOk result (MayReplay (replay_read file.now (option_copied known_file.entry) (H.tells shelf.old) (S.left input.old))) }
    ensures end { OnOk result (IsAtEnd (S.left input.new)) }
    ensures unread { IfErr result (λ stop. IsOfFile stop → input.new ≡ input.old) }
    ensures refused { IfErr result (λ stop. IsRefusal stop → MayRefuse (replay_output file.now (option_copied known_file.entry) (H.tells shelf.old) (S.left input.old))) }
    ensures cause { IfErr result (IsReplayStop file.now (option_copied known_file.entry) (H.tells shelf.old) (S.left input.old)
        (Rises (H.faults shelf.old) (H.faults shelf.new)) (Rose (S.faults input.old) (S.faults input.new))) }
    ensures quiet { UnlessReadFault result (SameCounts (H.faults shelf.old) (H.faults shelf.new)) }
    ensures few { RoseAtMost (H.fetches shelf.old) (H.fetches shelf.new) (length (file.now ∷ option_to_list (option_copied known_file.entry))) }
    ensures quiet_input { UnlessReadFault result (S.faults input.new ≡ S.faults input.old) }
{
    let explore = exploration(alloc, shelf, input, file, known_file)?;
    exploration_output(alloc, &explore)
}

/// Reads the files and then the input, and explores the table by the script.
fn exploration<H: Shelf, S: Source>(
    alloc: Global,
    shelf: &mut H,
    input: &mut S,
    file: &Word,
    known_file: Option<&Word>,
) -> Result<Explore, Stop>
    ensures exploration { IfOk result (λ explore. MayRead (replay_read file.now (option_copied known_file.entry) (H.tells shelf.old) (S.left input.old)) (exploration_of explore)) }
    ensures explored { IfOk result (λ explore. IsExplored (exploration_of explore)) }
    ensures writable { IfOk result (λ explore. SettingsCanBeWritten explore.opening.table.context.width explore.opening.settings) }
    ensures end { OnOk result (IsAtEnd (S.left input.new)) }
    ensures unread { IfErr result (λ stop. IsOfFile stop → input.new ≡ input.old) }
    ensures refused { IfErr result (λ stop. IsRefusal stop → MayRefuse (replay_read file.now (option_copied known_file.entry) (H.tells shelf.old) (S.left input.old))) }
    ensures cause { IfErr result (IsReplayStop file.now (option_copied known_file.entry) (H.tells shelf.old) (S.left input.old)
        (Rises (H.faults shelf.old) (H.faults shelf.new)) (Rose (S.faults input.old) (S.faults input.new))) }
    ensures quiet { UnlessReadFault result (SameCounts (H.faults shelf.old) (H.faults shelf.new)) }
    ensures few { RoseAtMost (H.fetches shelf.old) (H.fetches shelf.new) (length (file.now ∷ option_to_list (option_copied known_file.entry))) }
    ensures quiet_input { UnlessReadFault result (S.faults input.new ≡ S.faults input.old) }
{
    let start = load_start(alloc, shelf, file, known_file)?;
    explore_by_script(alloc, input, known_file, start)
}

/// Explores the table of the start by the script on the input. The known implications of the start are those of the known file, if one is given.
fn explore_by_script<S: Source>(
    alloc: Global,
    input: &mut S,
    known_file: Option<&Word>,
    start: Start,
) -> Result<Explore, Stop>
    requires width { start.known.width ≡ start.table.context.width }
    requires even { HaveWidth start.table.context.width start.known.members }
    requires respected { first_break start.known.members 0 start.table.context.rows ≡ None }
    ensures exploration { IfOk result (λ explore. MayRead (exploration_read (option_copied known_file.entry) (S.left input.old) (start_of start)) (exploration_of explore)) }
    ensures explored { IfOk result (λ explore. IsExplored (exploration_of explore)) }
    ensures writable { IfOk result (λ explore. SettingsCanBeWritten explore.opening.table.context.width explore.opening.settings) }
    ensures end { OnOk result (IsAtEnd (S.left input.new)) }
    ensures refused { IfErr result (λ stop. IsRefusal stop → MayRefuse (exploration_read (option_copied known_file.entry) (S.left input.old) (start_of start))) }
    ensures cause { IfErr result (IsInputStop (option_copied known_file.entry) start.table (S.left input.old)
        (Rose (S.faults input.old) (S.faults input.new))) }
    ensures quiet { UnlessReadFault result (S.faults input.new ≡ S.faults input.old) }
{
    let Start { table, known } = start;
    let script = load_script(alloc, input, table.rows().width())?;
    let (settings, events) = choose_settings(alloc, known_file, known, &table, script)?;
    Ok(apply_events(alloc, table, settings, events.into_vec())?)
}

/// Opens an exploration of the table under the settings, and applies the events.
fn apply_events(
    alloc: Global,
    table: Table,
    settings: Settings,
    events: Vec<Event>,
) -> Result<Explore, Memory>
    requires width { settings.known.width ≡ table.context.width }
    requires may { list_all (may_apply table.context.width) events.items ≡ true }
    ensures { IfOk result (λ explore. exploration_of explore ≡ exploration_by table (settings_of settings) events.items) }
{
    // (each row respects what is known, so no other fault can come)
    let Ok(mut explore) = Explore::open_with(alloc, table, MAX_EXPERTS, settings) else {
        return Err(Memory);
    };
    for event in events {
        explore.apply(event)?;
    }
    Ok(explore)
}

/// The text of an exploration.
fn exploration_output(alloc: Global, explore: &Explore) -> Result<Output, Stop>
    requires { SettingsCanBeWritten explore.now.opening.table.context.width explore.now.opening.settings }
    ensures text { IfOk result (λ output. output ≡ exploration_output (exploration_of explore.now)) }
    ensures spells { OnOk result (SpellsItself (exploration_of explore.now)) }
    ensures cause { IfErr result (λ stop. stop ≡ Stop.Memory) }
{
    Ok(Output {
        text: Text::whole(explore_text(alloc, explore)?),
        ending: Ending::of(explore),
    })
}
