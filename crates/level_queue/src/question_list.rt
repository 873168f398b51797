//! A list of questions that a row changes quickly, as few of them are looked at.

ghost use Rattle.std.specs.Prelude.{◌≡◌, ◌<◌, ◌≤◌, ◌+◌, ◌-◌, true, false, nat_le, length, drop, slice_index_or, slice_set, IfOk};
ghost use Rattle.std.specs.List.{copy_within, list_all, AllWithin};
ghost use Rattle.fca_model.specs.Sets.{Set, within, increasing};
ghost use Rattle.fca_model.specs.Implications.{Rule, premises};
ghost use Rattle.level_queue.specs.Queue.{narrowed, is_unclosed, is_left};
ghost use Rattle.level_queue.specs.QuestionLists.{AreInOneWord, IsPlaceFor};

use attr_bits::{Attrs, Bits, ONE_WORD};
use fca_model::Memory;
use implication_closure::{Implication, Question};
use std::alloc::Global;
use std::marker::Model;

/// Questions, and apart from them their premises in one word each, which lie close together. If a premise has more attributes, there are none of these.
#[derive(Drop)]
pub(crate) struct QuestionList {
    questions: Vec<Question>,
    in_one_word: Vec<Bits<1>>,
}

impl Model for QuestionList {
    ghost use Rattle.std.specs.Prelude.{List};
    ghost use Rattle.fca_model.specs.Implications.{Rule};
    ghost use Rattle.level_queue.specs.QuestionLists.{AreInOneWord};

    ghost Value = { List Rule };

    ghost view = { λ a. a.questions.items };

    ghost invariant = { λ a. AreInOneWord a.questions.items a.in_one_word.items };
}

/// A row, also in one word if it fits.
#[derive(Drop)]
pub(crate) struct Row {
    whole: Attrs,
    in_one_word: Option<Bits<1>>,
}

impl Model for Row {
    ghost use Rattle.std.specs.Prelude.{◌≡◌, IfSome};
    ghost use Rattle.fca_model.specs.Sets.{Set};

    ghost Value = { Set };

    ghost view = { λ a. a.whole };

    ghost invariant = { λ a. IfSome a.in_one_word (λ row. row ≡ a.whole) };
}

impl Row {
    /// This row.
    pub(crate) fn new(row: &Attrs) -> Row
        ensures { result ≡ row.now }
    {
        Row {
            whole: *row,
            in_one_word: if row.width() <= ONE_WORD {
                Some(row.resize::<1>())
            } else {
                None
            },
        }
    }
}

impl QuestionList {
    /// These questions.
    pub(crate) fn new(alloc: Global, questions: Vec<Question>) -> Result<QuestionList, Memory>
        ensures { IfOk result (λ list. list ≡ questions.items) }
    {
        let in_one_word = premises_in_one_word(alloc, &questions)?;
        Ok(QuestionList {
            questions,
            in_one_word,
        })
    }

    /// The questions.
    pub(crate) fn as_slice(&self) -> &[Question]
        ensures { result.now ≡ self.now }
    {
        &self.questions
    }

    /// Narrows the question at the place, whose premise the row has. Whether it is still not closed.
    pub(crate) fn narrow_at(&mut self, place: usize, row: &Row) -> bool
        requires inside { place < length self.old }
        requires reached { (question : Rule) → question ≡ slice_index_or self.old place question → within question.premise row.now ≡ true }
        ensures met { (question : Rule) → question ≡ slice_index_or self.old place question → self.new ≡ slice_set self.old place (narrowed row.now question) }
        ensures left { (question : Rule) → question ≡ slice_index_or self.old place question → result ≡ is_left row.now question }
        ensures long { length self.new ≡ length self.old }
    {
        let met = narrow_question(&row.whole, &self.questions[place]);
        self.questions[place] = met;
        met.premise != met.conclusion
    }

    /// Of the questions between two places, the place behind the last one whose premise the row has. If there is none, it is the first place.
    pub(crate) fn end_of_reached(&self, first: usize, end: usize, row: &Row) -> usize
        requires some { first ≤ end }
        requires inside { end ≤ length self.now }
        ensures first { first ≤ result }
        ensures end { result ≤ end }
        ensures reached { (question : Rule) → first < result → question ≡ slice_index_or self.now (result - 1) question
            → within question.premise row.now ≡ true }
        ensures passed { AllWithin (λ q. within q.premise row.now ≡ false) self.now result end }
    {
        if let Some(row) = &row.in_one_word {
            if !self.in_one_word.is_empty() {
                return end_of_sets(&self.in_one_word, first, end, row);
            }
        }
        end_of_questions(&self.questions, first, end, &row.whole)
    }

    /// Of the questions from a place on, the place of the first one whose premise does not come before the given one.
    pub(crate) fn first_from(&self, first: usize, premise: &Attrs) -> usize
        requires inside { first ≤ length self.now }
        requires increasing { increasing (premises (drop first self.now)) ≡ true }
        ensures { IsPlaceFor premise.now (premises (drop first self.now)) result }
    {
        if !self.in_one_word.is_empty() && premise.width() <= ONE_WORD {
            return first_set(&self.in_one_word[first..], &premise.resize::<1>());
        }
        first_question(&self.questions[first..], premise)
    }

    /// Copies the questions from one place to another over those from a third place on.
    pub(crate) fn copy_within(&mut self, first: usize, end: usize, place: usize)
        requires some { first ≤ end }
        requires inside { end ≤ length self.old }
        requires room { place + (end - first) ≤ length self.old }
        ensures { self.new ≡ copy_within self.old first end place }
    {
        self.questions.copy_within(first..end, place);
        if !self.in_one_word.is_empty() {
            self.in_one_word.copy_within(first..end, place);
        }
    }
}

/// The premises in one word each, or none if one has more attributes.
fn premises_in_one_word(alloc: Global, questions: &[Question]) -> Result<Vec<Bits<1>>, Memory>
    ensures { IfOk result (λ sets. AreInOneWord questions.now sets.items) }
{
    if !fit_one_word(questions) {
        return Ok(Vec::new(alloc));
    }
    let mut sets = Vec::with_capacity(alloc, questions.len())?;
    for question in questions {
        sets.push(question.premise.resize::<1>())?;
    }
    Ok(sets)
}

/// Whether one word holds each of the premises.
fn fit_one_word(questions: &[Question]) -> bool
    ensures { result ≡ list_all (λ i. nat_le (length i.premise) ONE_WORD) questions.now }
{
    questions.iter().all(|i| i.premise.width() <= ONE_WORD)
}

/// The question after a row that has its premise: the conclusion loses what the row lacks.
fn narrow_question(row: &Attrs, question: &Question) -> Question
    requires reached { within question.now.premise row.now ≡ true }
    ensures { result ≡ narrowed row.now question.now }
{
    Implication {
        premise: question.premise,
        conclusion: question.conclusion.meet(row),
    }
}

/// Of the sets between two places, the place behind the last one that the row has. If there is none, it is the first place.
fn end_of_sets(sets: &[Bits<1>], first: usize, end: usize, row: &Bits<1>) -> usize
    requires some { first ≤ end }
    requires inside { end ≤ length sets.now }
    ensures first { first ≤ result }
    ensures end { result ≤ end }
    ensures reached { (A : Set) → first < result → A ≡ slice_index_or sets.now (result - 1) A → within A row.now ≡ true }
    ensures passed { AllWithin (λ A. within A row.now ≡ false) sets.now result end }
{
    for place in (first..end).rev() {
        if sets[place].within(row) {
            return place + 1;
        }
    }
    first
}

/// Of the questions between two places, the place behind the last one whose premise the row has. If there is none, it is the first place.
fn end_of_questions(questions: &[Question], first: usize, end: usize, row: &Attrs) -> usize
    requires some { first ≤ end }
    requires inside { end ≤ length questions.now }
    ensures first { first ≤ result }
    ensures end { result ≤ end }
    ensures reached { (question : Rule) → first < result → question ≡ slice_index_or questions.now (result - 1) question
        → within question.premise row.now ≡ true }
    ensures passed { AllWithin (λ q. within q.premise row.now ≡ false) questions.now result end }
{
    for place in (first..end).rev() {
        if questions[place].premise.within(row) {
            return place + 1;
        }
    }
    first
}

/// The place of the first set that does not come before this one.
fn first_set(sets: &[Bits<1>], set: &Bits<1>) -> usize
    requires { increasing sets.now ≡ true }
    ensures { IsPlaceFor set.now sets.now result }
{
    sets.partition_point(|i| *i < *set)
}

/// The place of the first question whose premise does not come before this one.
fn first_question(questions: &[Question], premise: &Attrs) -> usize
    requires { increasing (premises questions.now) ≡ true }
    ensures { IsPlaceFor premise.now (premises questions.now) result }
{
    questions.partition_point(|i| i.premise < *premise)
}
