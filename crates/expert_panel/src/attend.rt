//! The run of one expert at a gate.

ghost use Rattle.std.specs.Prelude.{◌≡◌, IfOk, IfErr, IfSome, Some};
ghost use Rattle.fca_model.specs.Widths.{IsWide, HasWideReply};
ghost use Rattle.turn_lock.specs.Passes.{badge, Belongs};
ghost use Rattle.expert_gate.specs.Turns.{RepliesTo};
ghost use Rattle.oracle_expert.specs.Answers.{HasWideAnswer, event_of};
ghost use Rattle.oracle_expert.specs.Runs.{question_after, is_done};
ghost use Rattle.expert_panel.specs.Turns.{IsPlayed, IsRefusedTurn, IsStopped};
ghost use Rattle.expert_panel.specs.Seats.{HasAttended};

use crate::end::SeatEnd;
use expert_gate::{ExpertPass, Gate};
use explore_state::{LevelSearch, Question, Reply};
use oracle_expert::{Answer, Expert};
use std::alloc::Global;
use std::sync::Wait;
use turn_lock::TurnFault;

/// The expert draws, answers and learns the replies, until it is done or a turn or an answer is refused.
pub(crate) fn attend<X: Expert, R: Wait, S: LevelSearch>(
    rt: &R,
    alloc: Global,
    search: &S,
    gate: &Gate,
    pass: &mut ExpertPass,
    expert: &mut X,
) -> SeatEnd
    requires lock { Belongs gate.now pass.old }
    requires width { X.width expert.old ≡ gate.now.base.table.context.width }
    ensures { HasAttended X.width X.memory X.answers X.learns gate.now.base pass.old expert.old result pass.new expert.new }
{
    let mut due = None;
    for _ in rt.forever() {
        match take_turn(rt, alloc, search, gate, pass, expert, &due) {
            Ok(reply) => {
                if is_done(&reply) {
                    return SeatEnd::Done;
                }
                due = question_after(due, reply);
            }
            Err(TurnFault::Spent) => return SeatEnd::Spent,
            Err(TurnFault::Memory) => return SeatEnd::Memory,
        }
    }
    unreachable!()
}

/// One turn: a draw, or the answer to the question that is due.
fn take_turn<X: Expert, R: Wait, S: LevelSearch>(
    rt: &R,
    alloc: Global,
    search: &S,
    gate: &Gate,
    pass: &mut ExpertPass,
    expert: &mut X,
    due: &Option<Question>,
) -> Result<Reply, TurnFault>
    requires lock { Belongs gate.now pass.old }
    requires width { X.width expert.old ≡ gate.now.base.table.context.width }
    requires question { IfSome due.now (IsWide gate.now.base.table.context.width) }
    ensures same { badge pass.new ≡ badge pass.old }
    ensures width { X.width expert.new ≡ X.width expert.old }
    ensures played { IfOk result (λ reply. IsPlayed X.answers X.learns gate.now.base due.now
        pass.old (X.memory expert.old) reply pass.new (X.memory expert.new)) }
    ensures wide { IfOk result (HasWideReply gate.now.base.table.context.width) }
    ensures stopped { IfErr result (λ fault. IsStopped X.answers X.learns gate.now.base due.now
        pass.old (X.memory expert.old) fault pass.new (X.memory expert.new)) }
{
    match due {
        None => gate.draw(rt, pass),
        Some(question) => answer(rt, alloc, search, gate, pass, expert, question),
    }
}

/// The expert answers the question, and learns the reply. If no turn is left for the answer, it is not asked.
fn answer<X: Expert, R: Wait, S: LevelSearch>(
    rt: &R,
    alloc: Global,
    search: &S,
    gate: &Gate,
    pass: &mut ExpertPass,
    expert: &mut X,
    question: &Question,
) -> Result<Reply, TurnFault>
    requires lock { Belongs gate.now pass.old }
    requires width { X.width expert.old ≡ gate.now.base.table.context.width }
    requires question { IsWide gate.now.base.table.context.width question.now }
    ensures same { badge pass.new ≡ badge pass.old }
    ensures width { X.width expert.new ≡ X.width expert.old }
    ensures played { IfOk result (λ reply. IsPlayed X.answers X.learns gate.now.base (Some question.now)
        pass.old (X.memory expert.old) reply pass.new (X.memory expert.new)) }
    ensures wide { IfOk result (HasWideReply gate.now.base.table.context.width) }
    ensures stopped { IfErr result (λ fault. IsStopped X.answers X.learns gate.now.base (Some question.now)
        pass.old (X.memory expert.old) fault pass.new (X.memory expert.new)) }
{
    if pass.is_spent() {
        return Err(TurnFault::Spent);
    }
    let answer = expert.answer(alloc, question)?;
    let reply = give(rt, search, gate, pass, answer)?;
    expert.told(&reply);
    Ok(reply)
}

/// Gives the answer at the gate.
fn give<R: Wait, S: LevelSearch>(
    rt: &R,
    search: &S,
    gate: &Gate,
    pass: &mut ExpertPass,
    answer: Answer,
) -> Result<Reply, TurnFault>
    requires lock { Belongs gate.now pass.old }
    requires width { HasWideAnswer gate.now.base.table.context.width answer }
    ensures same { badge pass.new ≡ badge pass.old }
    ensures entry { IfOk result (λ reply. RepliesTo gate.now.base pass.old (event_of pass.old.number answer) reply pass.new) }
    ensures wide { IfOk result (HasWideReply gate.now.base.table.context.width) }
    ensures refused { IfErr result (λ fault. IsRefusedTurn gate.now.base fault pass.old pass.new) }
{
    match answer {
        Answer::Confirm => gate.confirm_by(rt, search, pass),
        Answer::Row { name, row } => gate.row_by(rt, search, pass, name, row),
    }
}

/// The question that is due after the reply, or `None` if a draw is due.
fn question_after(due: Option<Question>, reply: Reply) -> Option<Question>
    ensures { result ≡ question_after due reply }
{
    match reply {
        Reply::Ask(question) => Some(question),
        Reply::Breaks(..) => due,
        _ => None,
    }
}

/// Whether the reply says that no question is open.
fn is_done(reply: &Reply) -> bool
    ensures { result ≡ is_done reply.now }
{
    matches!(reply, Reply::Done)
}
