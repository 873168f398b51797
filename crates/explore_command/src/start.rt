//! What `explore` starts from: the table to explore, the settings of the exploration, and the tables of the experts.

ghost use Rattle.std.specs.Prelude.{◌≡◌, ◌≤◌, ◌∷◌, ◌++◌, ℕ, List, All, Bool, true, IfOk, IfErr, OnOk, vec_len, length, option_copied};
ghost use Rattle.std.specs.Prelude.{option_to_list};
ghost use Rattle.std.specs.Option.{option_map};
ghost use Rattle.fca_io.specs.Faults.{RoseAtMost, one_more};
ghost use Rattle.fca_model.specs.Exploration.{is_expert};
ghost use Rattle.command_io.specs.Readings.{MayRead, MayRefuse, Rises, SameCounts};
ghost use Rattle.command_io.specs.Causes.{UnlessReadFault};
ghost use Rattle.command_io.specs.Endings.{IsRefusal};
ghost use Rattle.fca_model.specs.declared.TheConstants.{MAX_EXPERTS};
ghost use Rattle.explore_command.specs.Starts.{MayOpen, if_agreeing, expert_read, experts_read, explore_read, IsExpertStop, IsExpertsStop};
ghost use Rattle.explore_command.specs.Starts.{IsExploreStop};

use crate::names::names_by_files;
use command_io::{Origin, Start, Stop, load_start, load_table};
use context_table::Table;
use explore_state::{ExpertNames, Settings};
use fca_io::Shelf;
use fca_model::{MAX_EXPERTS, Word};
use std::alloc::Global;
use std::marker::Model;

/// What `explore` starts from: a table, the settings of its exploration, and the tables of the experts who explore it.
#[derive(Drop)]
pub struct ExploreStart {
    /// The table to explore.
    pub(crate) table: Table,
    /// What is known of it, how many experts may hold one question, and the names of the experts.
    pub(crate) settings: Settings,
    /// The tables of the experts, in the order of their files.
    pub(crate) expert_tables: Vec<Table>,
}

impl Model for ExploreStart {
    ghost use Rattle.std.specs.Prelude.{◌≡◌};
    ghost use Rattle.exploration_terms.specs.Settings.{settings_of};
    ghost use Rattle.explore_command.specs.Starts.{ExploreStart as TheStart, MayOpen};

    ghost Value = { TheStart };

    ghost view = { λ start. record { table = start.table; settings = settings_of start.settings; expert_tables = start.expert_tables.items } };

    ghost invariant = { λ start. record {
      wide : start.settings.known.width ≡ start.table.context.width;
      may : MayOpen start.table (settings_of start.settings);
    } };
}

/// Reads the table in the file, the known file if one is given, and the experts' tables. With `wants_names`, each expert is named by the
/// word of its file.
pub fn load_explore_start<H: Shelf>(
    alloc: Global,
    shelf: &mut H,
    file: &Word,
    known_file: Option<&Word>,
    wants_names: bool,
    files: &[Word],
) -> Result<ExploreStart, Stop>
    requires { is_expert (length files.now) ≡ true }
    ensures start { IfOk result (λ start. MayRead (explore_read file.now (option_copied known_file.entry) wants_names files.now (H.tells shelf.old)) start) }
    ensures count { IfOk result (λ start. length start.expert_tables ≡ length files.now) }
    ensures wide { IfOk result (λ start. All (λ expert. expert.context.width ≡ start.table.context.width) start.expert_tables) }
    ensures refused { IfErr result (λ stop. IsRefusal stop → MayRefuse (explore_read file.now (option_copied known_file.entry) wants_names files.now (H.tells shelf.old))) }
    ensures cause { IfErr result (IsExploreStop file.now (option_copied known_file.entry) files.now (H.tells shelf.old)
        (Rises (H.faults shelf.old) (H.faults shelf.new))) }
    ensures quiet { UnlessReadFault result (SameCounts (H.faults shelf.old) (H.faults shelf.new)) }
    ensures few { RoseAtMost (H.fetches shelf.old) (H.fetches shelf.new) (length (file.now ∷ option_to_list (option_copied known_file.entry) ++ files.now)) }
{
    let names = names_by_files(alloc, wants_names, files)?;
    let start = load_start(alloc, shelf, file, known_file)?;
    let tables = load_expert_tables(alloc, shelf, &start.table, files)?;
    Ok(explore_start_of(start, names, tables))
}

/// What `explore` starts from with these tables and names. All experts may hold one question.
fn explore_start_of(start: Start, names: ExpertNames, tables: Vec<Table>) -> ExploreStart
    requires wide { start.known.width ≡ start.table.context.width }
    requires may { MayOpen start.table (record { known = start.known.members; holders = MAX_EXPERTS; expert_names = names }) }
    ensures { result ≡ record {
      table = start.table;
      settings = record { known = start.known.members; holders = MAX_EXPERTS; expert_names = names };
      expert_tables = tables.items;
    } }
{
    ExploreStart {
        table: start.table,
        settings: Settings {
            known: start.known,
            holders: MAX_EXPERTS,
            names,
        },
        expert_tables: tables,
    }
}

/// Reads the tables of the experts, and checks that they have the attributes of the table.
fn load_expert_tables<H: Shelf>(
    alloc: Global,
    shelf: &mut H,
    table: &Table,
    files: &[Word],
) -> Result<Vec<Table>, Stop>
    ensures tables { IfOk result (λ tables. MayRead (experts_read table.now files.now (H.tells shelf.old)) tables.items) }
    ensures count { IfOk result (λ tables. vec_len tables ≡ length files.now) }
    ensures wide { IfOk result (λ tables. All (λ expert. expert.context.width ≡ table.now.context.width) tables.items) }
    ensures refused { IfErr result (λ stop. IsRefusal stop → MayRefuse (experts_read table.now files.now (H.tells shelf.old))) }
    ensures cause { IfErr result (IsExpertsStop table.now 0 files.now (H.tells shelf.old)
        (Rises (H.faults shelf.old) (H.faults shelf.new))) }
    ensures quiet { UnlessReadFault result (SameCounts (H.faults shelf.old) (H.faults shelf.new)) }
    ensures few { RoseAtMost (H.fetches shelf.old) (H.fetches shelf.new) (length files.now) }
    ensures only_rise { (other : List ℕ) → H.faults shelf.old other ≤ H.faults shelf.new other }
{
    let mut tables = Vec::new(alloc);
    for (place, file) in files.iter().enumerate() {
        let expert_table = load_expert_table(alloc, shelf, table, file, Origin::Later(place))?;
        tables.push(expert_table)?;
    }
    Ok(tables)
}

/// Reads the table of an expert, and checks that it has the attributes of the table.
fn load_expert_table<H: Shelf>(
    alloc: Global,
    shelf: &mut H,
    table: &Table,
    file: &Word,
    origin: Origin,
) -> Result<Table, Stop>
    ensures expert { IfOk result (λ expert. MayRead (expert_read table.now file.now (H.tells shelf.old)) expert) }
    ensures wide { IfOk result (λ expert. expert.context.width ≡ table.now.context.width) }
    ensures refused { IfErr result (λ stop. IsRefusal stop → MayRefuse (expert_read table.now file.now (H.tells shelf.old))) }
    ensures cause { IfErr result (IsExpertStop table.now file.now (H.tells shelf.old)
        (Rises (H.faults shelf.old) (H.faults shelf.new)) origin) }
    ensures quiet { UnlessReadFault result (SameCounts (H.faults shelf.old) (H.faults shelf.new)) }
    ensures counted { H.fetches shelf.new ≡ option_map one_more (H.fetches shelf.old) }
    ensures kept { (other : List ℕ) → H.tells shelf.new other ≡ H.tells shelf.old other }
    ensures only_rise { (other : List ℕ) → H.faults shelf.old other ≤ H.faults shelf.new other }
{
    let expert_table = load_table(alloc, shelf, file, origin)?;
    check_attributes(table, expert_table, origin)
}

/// Checks that the expert's table has the attributes of the table, and gives it back.
fn check_attributes(table: &Table, expert_table: Table, origin: Origin) -> Result<Table, Stop>
    ensures expert { IfOk result (λ r. MayRead (if_agreeing table.now expert_table) r) }
    ensures same { IfOk result (λ r. r ≡ expert_table) }
    ensures wide { IfOk result (λ r. r.context.width ≡ table.now.context.width) }
    ensures refused { IfErr result (λ _. MayRefuse (if_agreeing table.now expert_table)) }
    ensures cause { IfErr result (λ stop. stop ≡ Stop.OtherAttributes origin) }
{
    if expert_table.rows().width() == table.rows().width() && expert_table.same_attributes(table) {
        Ok(expert_table)
    } else {
        Err(Stop::OtherAttributes(origin))
    }
}
