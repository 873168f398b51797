//! The answer to one line.

ghost use Rattle.std.specs.Prelude.{◌≡◌, ℕ, Some, [], List, IfOk, IfErr};
ghost use Rattle.fca_model.specs.Exploration.{SetEvent, SetEntry};
ghost use Rattle.expert_wire.specs.Requests.{request_form};
ghost use Rattle.expert_gate.specs.Desks.{Works};
ghost use Rattle.expert_sessions.specs.Lines.{Asks, Says};
ghost use Rattle.expert_sessions.specs.Moves.{Enters, desk_progress_of};
ghost use Rattle.expert_sessions.specs.Courses.{said_of};

use crate::ended::Ended;
use crate::said::Said;
use context_table::Table;
use expert_gate::Desk;
use expert_wire::{Request, RequestFault, read_request};
use explore_state::Reply;
use std::alloc::Global;
use turn_lock::TurnFault;

/// Does at the desk what the line asks for.
pub(crate) fn answer<D: Desk>(
    alloc: Global,
    desk: &mut D,
    table: &Table,
    line: &[u8],
) -> Result<Said, Ended>
    requires { D.attribute_count desk.old ≡ table.now.context.width }
    ensures desk { Works (D.state desk.old) (D.state desk.new) }
    ensures width { D.attribute_count desk.new ≡ D.attribute_count desk.old }
    ensures answered { IfOk result (λ said. (made : List SetEntry) × (turns : ℕ)
        × Says (D.state desk.old).number (request_form line.now table.now.context.width) said made turns
        × Enters (desk_progress_of (D.state desk.old)) (desk_progress_of (D.state desk.new)) made turns) }
    ensures spent { IfErr result (λ ended. (ended ≡ Ended.Spent) × ((D.state desk.new).left ≡ Some 0)
        × Enters (desk_progress_of (D.state desk.old)) (desk_progress_of (D.state desk.new)) [] 0
        × (event : SetEvent) × Asks (D.state desk.old).number (request_form line.now table.now.context.width) event) }
{
    match read_request(alloc, line, table.rows().width()) {
        Ok(Request::Draw) => said_of(desk.draw()),
        Ok(Request::Confirm) => said_of(desk.confirm()),
        Ok(Request::Row { name, row }) => said_of(desk.row(name, row)),
        Ok(Request::Leave) => said_of(desk.leave()),
        Ok(Request::Quit) => Ok(Said::Bye),
        Err(RequestFault::Line) => Ok(Said::BadLine),
        Err(RequestFault::Width) => Ok(Said::BadWidth),
        Err(RequestFault::Memory) => Ok(Said::NoMemory),
    }
}

/// The answer that a turn comes to, or that no turn was left.
fn said_of(turn: Result<Reply, TurnFault>) -> Result<Said, Ended>
    ensures { result ≡ said_of turn }
{
    match turn {
        Ok(reply) => Ok(Said::Replied(reply)),
        Err(TurnFault::Memory) => Ok(Said::NoMemory),
        Err(TurnFault::Spent) => Err(Ended::Spent),
    }
}
