//! A level of the basis with its members as open questions.

ghost use Rattle.std.specs.Prelude.{IfOk};
ghost use Rattle.next_level.specs.Openings.{CanOpen, IsOpened};

use crate::questions::OpenQuestions;
use derivation::Rows;
use fca_model::Memory;
use implication_closure::ImplicationList;
use next_level::{Ahead, LevelSearch};
use std::alloc::Global;

/// A level whose questions are open. It keeps them in a form that changes in place, where a `Level` of `next_level` has a plain list.
#[derive(Drop)]
pub(crate) struct OpenLevel {
    /// The open questions.
    pub(crate) questions: OpenQuestions,
    /// The size of their premises.
    pub(crate) size: u32,
    /// Candidates for later levels.
    pub(crate) ahead: Ahead,
}

/// Opens the next level that has a member. The rules are the known implications and, behind them, the members of the basis below a size.
pub(crate) fn open_level<S: LevelSearch>(
    search: &S,
    alloc: Global,
    rows: &Rows,
    rules: &ImplicationList,
    ahead: &Ahead,
) -> Result<OpenLevel, Memory>
    requires { CanOpen rows.now rules.now ahead.now }
    ensures { IfOk result (λ level. IsOpened rows.now rules.now level.size level.questions level.ahead) }
{
    let next = search.find_next(alloc, rows, rules, ahead)?;
    let level = next.level;
    Ok(OpenLevel {
        questions: OpenQuestions::new(alloc, level.members)?,
        size: level.size,
        ahead: next.ahead,
    })
}
