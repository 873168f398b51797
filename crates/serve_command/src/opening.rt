//! The exploration that `serve` opens before it listens.

ghost use Rattle.std.specs.Prelude.{◌≡◌, IfOk, None, true};
ghost use Rattle.fca_model.specs.Exploration.{is_expert};
ghost use Rattle.explore_state.specs.Faults.{first_break};
ghost use Rattle.command_io.specs.Known.{start_of};
ghost use Rattle.serve_command.specs.Openings.{opening_by, IsNew};

use command_io::Start;
use explore_state::{ExpertNames, Explore, Settings, SideBySide};
use fca_model::Memory;
use std::alloc::Global;
use std::thread::Threads;

/// Opens an exploration of the table. At most `holders` of the experts may hold one question. All processors look for the first questions.
pub(crate) fn open_exploration<R: Threads>(
    rt: &R,
    alloc: Global,
    start: Start,
    experts: u8,
    holders: u8,
) -> Result<Explore, Memory>
    requires experts { is_expert experts ≡ true }
    requires holders { is_expert holders ≡ true }
    requires width { start.known.width ≡ start.table.context.width }
    requires respected { first_break start.known.members 0 start.table.context.rows ≡ None }
    ensures opening { IfOk result (λ explore. explore.opening ≡ opening_by experts holders (start_of start)) }
    ensures new { IfOk result IsNew }
{
    let _known = start.known.as_slice();
    let settings = Settings {
        known: start.known,
        holders,
        names: ExpertNames::new(alloc),
    };
    let search = SideBySide::on_all_processors(rt);
    // (each row respects what is known, so no other fault can come)
    let Ok(explore) = Explore::open_with_by(&search, alloc, start.table, experts, settings) else {
        return Err(Memory);
    };
    Ok(explore)
}
