//! The open questions in lectic order. They change in place: one is taken out, or a row narrows all.

ghost use Rattle.std.specs.Prelude.{◌≡◌, ◌<◌, ◌≤◌, ◌-◌, ◌++◌, length, map, take, drop, true, false, slice_get, slice_index_or, slice_set};
ghost use Rattle.std.specs.Prelude.{nat_lt, not, ◌&&◌, Some, IfSome, IsSome, IfOk};
ghost use Rattle.std.specs.List.{list_all, list_any, remove};
ghost use Rattle.fca_model.specs.Sets.{increasing};
ghost use Rattle.fca_model.specs.Implications.{Rule, premises};
ghost use Rattle.fca_model.specs.Invariant.{Among};
ghost use Rattle.level_queue.specs.Queue.{narrowed, still_open, is_unclosed, is_left, is_same};

use crate::question_list::{QuestionList, Row};
use attr_bits::Attrs;
use fca_model::Memory;
use implication_closure::Question;
use std::alloc::Global;
use std::marker::Model;

/// The questions from place `first` on. Those before it were taken out.
#[derive(Drop)]
pub(crate) struct OpenQuestions {
    list: QuestionList,
    first: usize,
}

impl Model for OpenQuestions {
    ghost use Rattle.std.specs.Prelude.{List, ◌≤◌, length, drop};
    ghost use Rattle.fca_model.specs.Implications.{Rule};

    ghost Value = { List Rule };

    ghost view = { λ a. drop a.first a.list };

    ghost invariant = { λ a. a.first ≤ length a.list };
}

impl OpenQuestions {
    /// These questions.
    pub(crate) fn new(alloc: Global, questions: Vec<Question>) -> Result<OpenQuestions, Memory>
        ensures { IfOk result (λ them. them ≡ questions.items) }
    {
        let list = QuestionList::new(alloc, questions)?;
        Ok(OpenQuestions { list, first: 0 })
    }

    /// The questions.
    pub(crate) fn as_slice(&self) -> &[Question]
        ensures { result.now ≡ self.now }
    {
        &self.list.as_slice()[self.first..]
    }

    /// The question at place i.
    pub(crate) fn get(&self, i: usize) -> Question
        requires { i < length self.now }
        ensures { result ≡ slice_index_or self.now i result }
    {
        self.list.as_slice()[self.first + i]
    }

    /// The place of the question, found by its premise.
    pub(crate) fn place_of(&self, question: &Question) -> Option<usize>
        requires { increasing (premises self.now) ≡ true }
        ensures inside { IfSome result (λ i. i < length self.now) }
        ensures found { IfSome result (λ i. slice_get self.now i ≡ Some question.now) }
        ensures there { Among self.now question.now → IsSome result }
    {
        let place = self.list.first_from(self.first, &question.premise);
        if is_question_at(self.as_slice(), place, question) {
            Some(place)
        } else {
            None
        }
    }

    /// Takes out the question at place i. Those before it move. They are few, as experts are asked the first questions.
    pub(crate) fn take_out(&mut self, i: usize)
        requires { i < length self.old }
        ensures { self.new ≡ remove self.old i }
    {
        let _count = self.list.as_slice().len();
        let first = self.first;
        self.list.copy_within(first, first + i, first + 1);
        self.first = first + 1;
    }

    /// Narrows the questions, none of which is closed, by a row. Those that it closes are dropped.
    pub(crate) fn narrow(&mut self, row: &Attrs)
        requires { list_all is_unclosed self.old ≡ true }
        ensures { self.new ≡ still_open (map (narrowed row.now) self.old) }
    {
        self.first = narrow_from(&mut self.list, self.first, &Row::new(row));
    }
}

/// Narrows the questions from a place on, none of which is closed, by a row. Those that are still not closed stand from the returned place on, so a question moves
/// only if a later one is dropped. Questions between two that are dropped move together.
fn narrow_from(list: &mut QuestionList, first: usize, row: &Row) -> usize
    requires inside { first ≤ length list.old }
    requires unclosed { list_all is_unclosed (drop first list.old) ≡ true }
    ensures inside { result ≤ length list.new }
    ensures narrowed { drop result list.new ≡ still_open (map (narrowed row.now) (drop first list.old)) }
{
    let mut kept = list.as_slice().len();
    let mut end = kept;
    let mut place = list.end_of_reached(first, end, row);
    while first < place {
        if !list.narrow_at(place - 1, row) {
            kept = move_up(list, place, end, kept);
            end = place - 1;
        }
        place = list.end_of_reached(first, place - 1, row);
    }
    move_up(list, first, end, kept)
}

/// Moves the questions between two places up to those from a later place on. Returns where they begin now.
fn move_up(list: &mut QuestionList, first: usize, end: usize, later: usize) -> usize
    requires some { first ≤ end }
    requires before { end ≤ later }
    requires inside { later ≤ length list.old }
    ensures place { result ≡ later - (end - first) }
    ensures moved { drop result list.new ≡ take (end - first) (drop first list.old) ++ drop later list.old }
    ensures rest { take first list.new ≡ take first list.old }
    ensures long { length list.new ≡ length list.old }
{
    let place = later - (end - first);
    if place != first {
        list.copy_within(first, end, place);
    }
    place
}

/// Whether there are questions and the row closes all of them.
pub(crate) fn closes_all(questions: &[Question], row: &Attrs) -> bool
    ensures { result ≡ (nat_lt 0 (length questions.now) && not (list_any (is_left row.now) questions.now)) }
{
    !questions.is_empty() && !is_any_left(questions, row)
}

/// Whether the row leaves one of the questions not closed.
fn is_any_left(questions: &[Question], row: &Attrs) -> bool
    ensures { result ≡ list_any (is_left row.now) questions.now }
{
    questions.iter().any(|i| is_left(i, row))
}

/// Whether the row leaves the question not closed.
fn is_left(question: &Question, row: &Attrs) -> bool
    ensures { result ≡ is_left row.now question.now }
{
    if question.premise.within(row) {
        question.premise != question.conclusion.meet(row)
    } else {
        question.premise != question.conclusion
    }
}

/// Whether the question stands at the place.
fn is_question_at(questions: &[Question], place: usize, question: &Question) -> bool
    ensures { result ≡ (nat_lt place (length questions.now) && is_same question.now (slice_index_or questions.now place question.now)) }
{
    place < questions.len() && is_same(&questions[place], question)
}

/// Whether both are one question.
fn is_same(one: &Question, other: &Question) -> bool
    ensures { result ≡ is_same other.now one.now }
{
    one.premise == other.premise && one.conclusion == other.conclusion
}
