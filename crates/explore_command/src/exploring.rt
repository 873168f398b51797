//! The exploration of a start's table by oracles of the experts' tables, and the text of it.

ghost use Rattle.std.specs.Prelude.{◌≡◌, ◌≤◌, ◌∷◌, ◌++◌, true, [], All, Bool, IfOk, IfErr, length, option_copied, option_to_list, vec_len};
ghost use Rattle.fca_model.specs.Exploration.{is_expert};
ghost use Rattle.fca_io.specs.Faults.{RoseAtMost};
ghost use Rattle.exploration_terms.specs.Settings.{settings_of};
ghost use Rattle.basis_report.specs.Explorations.{Spells};
ghost use Rattle.expert_scripts.specs.Transcripts.{SettingsCanBeWritten};
ghost use Rattle.command_io.specs.Readings.{MayRefuse, Rises, SameCounts};
ghost use Rattle.command_io.specs.Causes.{UnlessReadFault};
ghost use Rattle.command_io.specs.Readings.Reading.{Read};
ghost use Rattle.command_io.specs.Explorations.{opening_of};
ghost use Rattle.command_io.specs.Endings.{IsRefusal};
ghost use Rattle.explore_command.specs.Starts.{explore_read, IsExploreStop};
ghost use Rattle.explore_command.specs.Explored.{explored_ending, text_with_conflicts, HasExplored, MayExplore};

use crate::start::{ExploreStart, load_explore_start};
use basis_report::{conflicts_text, explore_pieces, explore_text};
use command_io::{Ending, Output, Stop, Text};
use context_table::Table;
use expert_panel::{ExplorationByOracles, explore_with_oracles};
use explore_state::{Explore, Settings, SideBySide};
use fca_io::Shelf;
use fca_model::{MAX_TURNS, Memory, Word};
use std::alloc::Global;
use std::sync::Wait;
use std::thread::Threads;

/// Explores the table in the file by the oracles of the experts' files, and gives the text. A known file may be given. With `wants_names`,
/// each expert is named by the word of its file.
pub fn explore<R: Threads + Wait + Sync, H: Shelf>(
    rt: &R,
    alloc: Global,
    shelf: &mut H,
    file: &Word,
    known_file: Option<&Word>,
    wants_names: bool,
    files: &[Word],
) -> Result<Output, Stop>
    requires { is_expert (length files.now) ≡ true }
    ensures output { IfOk result (MayExplore (explore_read file.now (option_copied known_file.entry) wants_names files.now (H.tells shelf.old))) }
    ensures refused { IfErr result (λ stop. IsRefusal stop → MayRefuse (explore_read file.now (option_copied known_file.entry) wants_names files.now (H.tells shelf.old))) }
    ensures cause { IfErr result (IsExploreStop file.now (option_copied known_file.entry) files.now (H.tells shelf.old)
        (Rises (H.faults shelf.old) (H.faults shelf.new))) }
    ensures quiet { UnlessReadFault result (SameCounts (H.faults shelf.old) (H.faults shelf.new)) }
    ensures few { RoseAtMost (H.fetches shelf.old) (H.fetches shelf.new) (length (file.now ∷ option_to_list (option_copied known_file.entry) ++ files.now)) }
{
    let start = load_explore_start(alloc, shelf, file, known_file, wants_names, files)?;
    Ok(explore_output(rt, alloc, start)?)
}

/// Explores the start's table by oracles of the experts' tables, and gives the text.
fn explore_output<R: Threads + Wait + Sync>(
    rt: &R,
    alloc: Global,
    start: ExploreStart,
) -> Result<Output, Memory>
    requires count { is_expert (length start.expert_tables) ≡ true }
    requires wide { All (λ expert. expert.context.width ≡ start.table.context.width) start.expert_tables }
    ensures { IfOk result (MayExplore (Read start)) }
{
    let explored = explore_by_oracles(rt, alloc, start)?;
    let output = output_of(rt, alloc, &explored);
    drop(explored);
    output
}

/// Explores the start's table by oracles of the experts' tables.
fn explore_by_oracles<R: Threads + Wait + Sync>(
    rt: &R,
    alloc: Global,
    start: ExploreStart,
) -> Result<ExplorationByOracles, Memory>
    requires count { is_expert (length start.expert_tables) ≡ true }
    requires wide { All (λ expert. expert.context.width ≡ start.table.context.width) start.expert_tables }
    ensures { IfOk result (λ r. HasExplored start r.explore r.oracles.items r.spent) }
{
    let count = start.expert_tables.len() as u8;
    let explore = open_exploration(rt, alloc, start.table, count, start.settings)?;
    explore_with_oracles(rt, alloc, explore, start.expert_tables, MAX_TURNS)
}

/// The text of the exploration with the conflicts of its oracles, and its ending.
fn output_of<R: Threads>(
    rt: &R,
    alloc: Global,
    explored: &ExplorationByOracles,
) -> Result<Output, Memory>
    requires count { vec_len explored.now.oracles ≤ explored.now.explore.opening.experts }
    requires writable { SettingsCanBeWritten explored.now.explore.opening.table.context.width explored.now.explore.opening.settings }
    ensures text { IfOk result (λ output. output.text ≡ text_with_conflicts explored.now.explore explored.now.oracles.items) }
    ensures spells { IfOk result (λ output. Spells explored.now.explore.opening.table explored.now.explore.opening.settings explored.now.explore.journal output.text) }
    ensures ending { IfOk result (λ output. output.ending ≡ explored_ending explored.now.spent) }
{
    let text = if explored.oracles.len() > 1 {
        text_in_pieces(rt, alloc, explored)?
    } else {
        whole_text(alloc, explored)?
    };
    Ok(Output {
        text,
        ending: explored_ending(explored.spent),
    })
}

/// The text of the exploration in pieces, which several threads make, and the conflicts of its oracles.
fn text_in_pieces<R: Threads>(
    rt: &R,
    alloc: Global,
    explored: &ExplorationByOracles,
) -> Result<Text, Memory>
    requires count { vec_len explored.now.oracles ≤ explored.now.explore.opening.experts }
    requires writable { SettingsCanBeWritten explored.now.explore.opening.table.context.width explored.now.explore.opening.settings }
    ensures text { IfOk result (λ text. text ≡ text_with_conflicts explored.now.explore explored.now.oracles.items) }
    ensures spells { IfOk result (Spells explored.now.explore.opening.table explored.now.explore.opening.settings explored.now.explore.journal) }
{
    let mut pieces = explore_pieces(rt, alloc, &explored.explore)?;
    let conflicts = conflicts_text(alloc, &explored.explore, &explored.oracles)?;
    pieces.push(conflicts)?;
    Ok(Text::in_pieces(pieces))
}

/// The text of the exploration and the conflicts of its oracles, in one piece.
fn whole_text(alloc: Global, explored: &ExplorationByOracles) -> Result<Text, Memory>
    requires count { vec_len explored.now.oracles ≤ explored.now.explore.opening.experts }
    requires writable { SettingsCanBeWritten explored.now.explore.opening.table.context.width explored.now.explore.opening.settings }
    ensures text { IfOk result (λ text. text ≡ text_with_conflicts explored.now.explore explored.now.oracles.items) }
    ensures spells { IfOk result (Spells explored.now.explore.opening.table explored.now.explore.opening.settings explored.now.explore.journal) }
{
    let mut text = explore_text(alloc, &explored.explore)?;
    let conflicts = conflicts_text(alloc, &explored.explore, &explored.oracles)?;
    text.extend_from_slice(&conflicts)?;
    Ok(Text::whole(text))
}

/// The ending of the text. `spent` says whether an expert used up its turns.
fn explored_ending(spent: bool) -> Ending
    ensures { result ≡ explored_ending spent }
{
    if spent {
        Ending::Spent
    } else {
        Ending::Finished
    }
}

/// Opens an exploration of the table, whose rows respect the known implications. All processors look for the first questions.
fn open_exploration<R: Threads>(
    rt: &R,
    alloc: Global,
    table: Table,
    count: u8,
    settings: Settings,
) -> Result<Explore, Memory>
    requires { settings.known.width ≡ table.context.width }
    ensures opening { IfOk result (λ explore. explore.opening ≡ opening_of table count (settings_of settings)) }
    ensures journal { IfOk result (λ explore. explore.journal ≡ []) }
{
    let search = SideBySide::on_all_processors(rt);
    match Explore::open_with_by(&search, alloc, table, count, settings) {
        Ok(explore) => Ok(explore),
        // (each row respects what is known)
        Err(_) => Err(Memory),
    }
}
