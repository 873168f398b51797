//! The session of one expert.

ghost use Rattle.std.specs.Prelude.{◌≡◌, ◌≤◌, ◌+◌, [], OnOk, IfErr};
ghost use Rattle.fca_model.specs.declared.TheConstants.{MAX_LINES};
ghost use Rattle.expert_gate.specs.Desks.{Works};
ghost use Rattle.expert_sessions.specs.Moves.{TakesTurnsAtMost, end_state_of, desk_progress_of};
ghost use Rattle.expert_sessions.specs.Talks.{HasTalked};
ghost use Rattle.expert_sessions.specs.Courses.{Serves, Halts, HasServed};
ghost use Rattle.expert_sessions.specs.Order.{ReadsForLine, ReadsWhereAnswered};

use crate::ahead::ReadAhead;
use crate::answer::answer;
use crate::ended::Ended;
use crate::said::{Said, greet, write_said};
use context_table::Table;
use expert_gate::Desk;
use fca_io::Duplex;
use std::alloc::Global;
use turn_lock::TurnFault;

/// The session of the desk's expert over the end: it greets, answers at most `lines` lines, and leaves.
pub fn session<D: Desk, E: Duplex>(
    alloc: Global,
    desk: &mut D,
    table: &Table,
    expert: u8,
    end: &mut E,
    lines: u32,
) -> Ended
    requires expert { expert ≡ (D.state desk.old).number }
    requires width { D.attribute_count desk.old ≡ table.now.context.width }
    requires lines { (1 ≤ lines) × (lines ≤ MAX_LINES) }
    ensures talk { HasTalked table.now expert lines
        (end_state_of E.Source.left E.Sink.held E.Source.faults E.Sink.faults end.old)
        (end_state_of E.Source.left E.Sink.held E.Source.faults E.Sink.faults end.new)
        (desk_progress_of (D.state desk.old)) (desk_progress_of (D.state desk.new)) result }
    ensures order { ReadsWhereAnswered E.Source.left E.Sink.held E.Source.reads E.Source.faults E.Sink.faults table.now expert end.old end.new }
    ensures turns { TakesTurnsAtMost (lines + 1) (D.state desk.old).left (D.state desk.new).left }
    ensures desk { Works (D.state desk.old) (D.state desk.new) }
    ensures width { D.attribute_count desk.new ≡ D.attribute_count desk.old }
{
    let Ok(mut ahead) = ReadAhead::new(alloc) else {
        return Ended::Memory;
    };
    match serve_lines(alloc, desk, table, expert, end, &mut ahead, lines) {
        Ended::Spent => Ended::Spent,
        ended => match desk.leave() {
            Ok(_) => ended,
            Err(TurnFault::Spent) => Ended::Spent,
            Err(TurnFault::Memory) => Ended::Memory,
        },
    }
}

/// Greets, and answers at most `lines` lines.
fn serve_lines<D: Desk, E: Duplex>(
    alloc: Global,
    desk: &mut D,
    table: &Table,
    expert: u8,
    end: &mut E,
    ahead: &mut ReadAhead,
    lines: u32,
) -> Ended
    requires none { ahead.old ≡ [] }
    requires expert { expert ≡ (D.state desk.old).number }
    requires width { D.attribute_count desk.old ≡ table.now.context.width }
    ensures served { HasServed table.now expert lines
        (end_state_of E.Source.left E.Sink.held E.Source.faults E.Sink.faults end.old)
        (end_state_of E.Source.left E.Sink.held E.Source.faults E.Sink.faults end.new)
        (desk_progress_of (D.state desk.old)) (desk_progress_of (D.state desk.new)) result }
    ensures order { ReadsWhereAnswered E.Source.left E.Sink.held E.Source.reads E.Source.faults E.Sink.faults table.now expert end.old end.new }
    ensures desk { Works (D.state desk.old) (D.state desk.new) }
    ensures width { D.attribute_count desk.new ≡ D.attribute_count desk.old }
{
    if greet(end, table, expert).is_err() {
        return Ended::WriteFault;
    }
    for _count in 0..lines {
        if let Err(ended) = serve_line(alloc, desk, table, end, ahead) {
            return ended;
        }
    }
    Ended::Limit
}

/// Reads a line, does what it asks for, and answers it.
fn serve_line<D: Desk, E: Duplex>(
    alloc: Global,
    desk: &mut D,
    table: &Table,
    end: &mut E,
    ahead: &mut ReadAhead,
) -> Result<(), Ended>
    requires width { D.attribute_count desk.old ≡ table.now.context.width }
    ensures served { OnOk result (Serves table.now (D.state desk.old).number
        (end_state_of E.Source.left E.Sink.held E.Source.faults E.Sink.faults end.old)
        (end_state_of E.Source.left E.Sink.held E.Source.faults E.Sink.faults end.new)
        (desk_progress_of (D.state desk.old)) (desk_progress_of (D.state desk.new))
        ahead.old ahead.new) }
    ensures halted { IfErr result (Halts table.now (D.state desk.old).number
        (end_state_of E.Source.left E.Sink.held E.Source.faults E.Sink.faults end.old)
        (end_state_of E.Source.left E.Sink.held E.Source.faults E.Sink.faults end.new)
        (desk_progress_of (D.state desk.old)) (desk_progress_of (D.state desk.new))
        ahead.old) }
    ensures order { ReadsForLine E.Source.left E.Sink.held E.Source.reads E.Source.faults E.Sink.faults ahead.old end.old end.new }
    ensures desk { Works (D.state desk.old) (D.state desk.new) }
    ensures width { D.attribute_count desk.new ≡ D.attribute_count desk.old }
{
    let at = ahead.read_line(end)?;
    let said = answer(alloc, desk, table, ahead.line(at))?;
    ahead.forget(at + 1);
    if write_said(alloc, end, table, &said).is_err() {
        return Err(Ended::WriteFault);
    }
    match said {
        Said::Bye => Err(Ended::Quit),
        _ => Ok(()),
    }
}
