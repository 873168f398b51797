//! Oracles: experts who know a table.

ghost use Rattle.std.specs.Prelude.{◌≡◌, ◌<◌, true, Some, None, IfOk, IfSome, length, map, position, slice_get};
ghost use Rattle.std.specs.List.{zip};
ghost use Rattle.fca_model.specs.Implications.{rule, holds};
ghost use Rattle.fca_model.specs.Widths.{IsWide};
ghost use Rattle.oracle_expert.specs.Answers.{HasWideAnswer};
ghost use Rattle.oracle_expert.specs.Indexed.{AreRowsOf};
ghost use Rattle.oracle_expert.specs.Oracles.{untold, is_counterexample, counterexample, answer_with, drop_given};

use crate::expert::{Answer, Expert};
use crate::indexed::{IndexedCopy, indexed_copy};
use attr_bits::{Attrs, Bits};
use context_table::Table;
use derivation::RowsOf;
use exploration_terms::Reply;
use extent_blocks::{BlockExtent, IndexedRows};
use fca_model::Memory;
use implication_closure::Question;
use std::alloc::{AllocError, Global};
use std::marker::Model;

/// An expert who answers from a table. Its answer is the first row that refutes the question and was not dropped. If there is no
/// such row, it confirms.
#[derive(Drop)]
pub struct Oracle {
    table: Table,
    copy: IndexedCopy,
    conflicts: Vec<Option<usize>>,
    given: Option<usize>,
}

impl Model for Oracle {
    ghost use Rattle.std.specs.Prelude.{◌≡◌, length};
    ghost use Rattle.oracle_expert.specs.Indexed.{AreRowsOf};
    ghost use Rattle.oracle_expert.specs.Oracles.{Recall};

    ghost Value = { Recall };

    ghost view = { λ o. record { table = o.table; conflicts = o.conflicts.items; given = o.given } };

    ghost invariant = { λ o. record { rows : AreRowsOf o.table.context o.copy; conflicts : length o.conflicts.items ≡ length o.table.context.rows } };
}

impl Oracle {
    /// Makes the oracle of the table, with room for one conflict of each row.
    pub fn new(alloc: Global, table: Table) -> Result<Oracle, Memory>
        ensures { IfOk result (λ oracle. oracle ≡ untold table) }
    {
        let copy = indexed_copy(alloc, table.rows())?;
        let conflicts = no_conflicts(alloc, table.rows().as_slice())?;
        Ok(Oracle {
            table,
            copy,
            conflicts,
            given: None,
        })
    }

    /// The table that it answers from.
    pub fn table(&self) -> &Table
        ensures table { result.now ≡ self.now.table }
        ensures conflicts { length self.now.conflicts ≡ length result.now.context.rows }
    {
        let _conflicts = &self.conflicts;
        &self.table
    }

    /// The place of the accepted implication against which the row was dropped, or `None` if it was not dropped.
    pub fn conflict(&self, row: usize) -> Option<usize>
        requires { row < length self.now.table.context.rows }
        ensures { slice_get self.now.conflicts row ≡ Some result }
    {
        self.conflicts[row]
    }
}

impl Expert for Oracle {
    ghost use Rattle.oracle_expert.specs.Oracles.{Answers, Learns};

    type Memory = Oracle;

    ghost memory = { λ o. o };

    ghost width = { λ o. o.table.context.width };

    ghost answers = { Answers };

    ghost learns = { Learns };

    fn answer(&mut self, alloc: Global, question: &Question) -> Result<Answer, Memory> {
        let place = counterexample(alloc, &self.table, &self.copy, &self.conflicts, question);
        let answer = answer_with(&self.table, place)?;
        self.given = place;
        Ok(answer)
    }

    fn told(&mut self, reply: &Reply) {
        if let Reply::Breaks(place, _) = reply {
            drop_given(&mut self.conflicts, self.given, *place);
        }
    }
}

/// A place for the conflict of each row. No row has one yet.
fn no_conflicts(alloc: Global, rows: &[Attrs]) -> Result<Vec<Option<usize>>, AllocError>
    ensures { IfOk result (λ conflicts. conflicts.items ≡ map (λ _. None) rows.now) }
{
    rows.iter().map(|_row| None).collect(alloc)
}

/// The place of the first row that refutes the question and was not dropped.
fn counterexample(
    alloc: Global,
    table: &Table,
    copy: &IndexedCopy,
    conflicts: &[Option<usize>],
    question: &Question,
) -> Option<usize>
    requires rows { AreRowsOf table.now.context copy.now }
    requires wide { IsWide table.now.context.width question.now }
    ensures { result ≡ counterexample table.now conflicts.now question.now }
{
    match copy {
        IndexedCopy::One(indexed) => counterexample_on(alloc, indexed, conflicts, question),
        IndexedCopy::Two(indexed) => counterexample_on(alloc, indexed, conflicts, question),
        IndexedCopy::Four(indexed) => counterexample_on(alloc, indexed, conflicts, question),
        IndexedCopy::Eight(indexed) => counterexample_on(alloc, indexed, conflicts, question),
        IndexedCopy::NoCopy => counterexample_among(table.rows(), conflicts, question),
    }
}

/// Looks for the counterexample in the copy of W words. If the columns show that no row refutes the question, no row is looked at.
fn counterexample_on<const W: usize>(
    alloc: Global,
    indexed: &IndexedRows<W>,
    conflicts: &[Option<usize>],
    question: &Question,
) -> Option<usize>
    requires { IsWide indexed.now.width question.now }
    ensures { result ≡ position (is_counterexample question.now) (zip indexed.now.rows conflicts.now) }
{
    let _width = indexed.rows().width();
    let premise = question.premise.resize();
    let conclusion = question.conclusion.resize();
    if is_seen_to_hold(alloc, indexed, &premise, &conclusion) {
        return None;
    }
    first_counterexample(indexed.rows().as_slice(), conflicts, &premise, &conclusion)
}

/// Whether the columns show that the implication holds. It may hold though they do not: if the premise is empty, or memory runs
/// out.
fn is_seen_to_hold<const W: usize>(
    alloc: Global,
    indexed: &IndexedRows<W>,
    premise: &Bits<W>,
    conclusion: &Bits<W>,
) -> bool
    requires premise { length premise.now ≡ indexed.now.width }
    requires conclusion { length conclusion.now ≡ indexed.now.width }
    ensures { result ≡ true → holds indexed.now (rule premise.now conclusion.now) ≡ true }
{
    let _width = indexed.rows().width();
    let Some(i) = premise.first_missing(&Bits::empty(premise.width())) else {
        return false;
    };
    match BlockExtent::of(alloc, indexed, premise) {
        Ok(near) => conclusion.within(&near.closure_among(indexed, i, premise)),
        Err(_) => false,
    }
}

/// Looks for the counterexample among rows of W words.
fn counterexample_among<const W: usize>(
    rows: &RowsOf<W>,
    conflicts: &[Option<usize>],
    question: &Question,
) -> Option<usize>
    requires { IsWide rows.now.width question.now }
    ensures { result ≡ position (is_counterexample question.now) (zip rows.now.rows conflicts.now) }
{
    let _width = rows.width();
    let premise = question.premise.resize();
    let conclusion = question.conclusion.resize();
    first_counterexample(rows.as_slice(), conflicts, &premise, &conclusion)
}

/// The place of the first row that refutes the implication and was not dropped.
fn first_counterexample<const W: usize>(
    rows: &[Bits<W>],
    conflicts: &[Option<usize>],
    premise: &Bits<W>,
    conclusion: &Bits<W>,
) -> Option<usize>
    ensures { result ≡ position (is_counterexample (rule premise.now conclusion.now)) (zip rows.now conflicts.now) }
{
    rows.iter().zip(conflicts).position(
        |(row, conflict)| -> bool
            ensures { result ≡ is_counterexample (rule premise.entry.now conclusion.entry.now) (row.entry.now, conflict.entry.now) }
        { premise.within(row) && !conclusion.within(row) && conflict.is_none() },
    )
}

/// The answer that gives the row at this place, or confirms if there is no place.
fn answer_with(table: &Table, place: Option<usize>) -> Result<Answer, Memory>
    requires { IfSome place (λ i. i < length table.now.context.rows) }
    ensures answer { IfOk result (λ answer. answer ≡ answer_with table.now place) }
    ensures wide { IfOk result (HasWideAnswer table.now.context.width) }
{
    let Some(i) = place else {
        return Ok(Answer::Confirm);
    };
    let name = table.object(i).copy()?;
    let row = table.rows().get(i);
    Ok(Answer::Row { name, row })
}

/// Drops the row that was given against the implication at this place, if a row was given and it was not dropped before.
fn drop_given(conflicts: &mut [Option<usize>], given: Option<usize>, place: usize)
    ensures { conflicts.new ≡ drop_given conflicts.old given place }
{
    if let Some(row) = given
        && let Some(None) = conflicts.get(row)
    {
        conflicts[row] = Some(place);
    }
}
