//! The verdict on an answer of an expert: the case of the step of an exploration that applies.
#![tactic(auto)]

ghost use Rattle.std.specs.Prelude.{◌≡◌, Option, Some, position};
ghost use Rattle.fca_model.specs.Sets.{same};
ghost use Rattle.fca_model.specs.Implications.{Rule};
ghost use Rattle.fca_model.specs.Exploration.{State, rules_of, row_reply, confirm_reply, first_missing};
ghost use Rattle.answer_check.specs.Verdicts.{row_verdict, confirm_verdict, row_reply_for, confirm_reply_for, IsOnRow, IsOnConfirmation};

use attr_bits::Attrs;
use derivation::Rows;
use implication_closure::{Implication, ImplicationList, Question};

/// The case of the step that applies to an answer. A place counts from 0 in the list that the case names.
#[derive(Clone, Copy)]
pub enum Verdict {
    /// The answer is recorded.
    Take,
    /// The row lacks this attribute of the premise.
    Misses(u32),
    /// The row has the whole conclusion.
    Keeps,
    /// The row does not respect the rule at this place.
    Breaks(usize),
    /// The row at this place refutes the question that was confirmed.
    Refuted(usize),
    /// The row at this place already refutes the question.
    SupersededRow(usize),
    /// The accepted implication at this place already has the premise.
    SupersededBy(usize),
}

/// The verdict on a row that an expert gives to a question.
pub fn check_row(rows: &Rows, rules: &ImplicationList, question: &Question, row: &Attrs) -> Verdict
    ensures reply { (s : State) → s.context ≡ rows.now → rules_of s ≡ rules.now.members
        → row_reply s (Some question.now) row.now ≡ row_reply_for s result }
    ensures case { IsOnRow rows.now.rows rules.now.members result }
{
    judge_row(rows, rules, question, row)
}

/// The verdict on a confirmation of a question.
pub fn check_confirm(rows: &Rows, accepted: &ImplicationList, question: &Question) -> Verdict
    ensures reply { (s : State) → s.context ≡ rows.now → s.accepted ≡ accepted.now.members
        → confirm_reply s (Some question.now) ≡ confirm_reply_for s result }
    ensures case { IsOnConfirmation rows.now.rows accepted.now.members result }
{
    judge_confirmation(rows, accepted, question)
}

/// The first case that applies to the row. This says which case; `check_row` says what it means for the step.
fn judge_row(rows: &Rows, rules: &ImplicationList, question: &Question, row: &Attrs) -> Verdict
    ensures { result ≡ row_verdict rows.now.rows rules.now.members question.now row.now }
{
    if let Some(attribute) = question.premise.first_missing(row) {
        return Verdict::Misses(attribute);
    }
    if question.conclusion.within(row) {
        return Verdict::Keeps;
    }
    if let Some(place) = rules.first_broken(row) {
        return Verdict::Breaks(place);
    }
    match rows.refuter(&question.premise, &question.conclusion) {
        Some(place) => Verdict::SupersededRow(place),
        None => Verdict::Take,
    }
}

/// The first case that applies to the confirmation. This says which case; `check_confirm` says what it means for the step.
fn judge_confirmation(rows: &Rows, accepted: &ImplicationList, question: &Question) -> Verdict
    ensures { result ≡ confirm_verdict rows.now.rows accepted.now.members question.now }
{
    if let Some(place) = rows.refuter(&question.premise, &question.conclusion) {
        return Verdict::Refuted(place);
    }
    match first_with_premise(accepted.as_slice(), &question.premise) {
        Some(place) => Verdict::SupersededBy(place),
        None => Verdict::Take,
    }
}

/// The place of the first implication with the premise.
fn first_with_premise(members: &[Implication], premise: &Attrs) -> Option<usize>
    ensures { result ≡ position (λ i. same i.premise premise.now) members.now }
{
    members.iter().position(|i| i.premise == *premise)
}
