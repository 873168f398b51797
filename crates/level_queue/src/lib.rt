//! The open questions of an exploration, kept from one event to the next. A recorded row closes some of them and narrows the conclusions of others. An accepted
//! question is taken out. After the last one of a size the next size is opened, if possible among candidates that were open before. Nothing lists all sets.
#![tactic(auto)]

mod open_level;
mod question_list;
mod questions;
mod rules;

ghost use Rattle.std.specs.Prelude.{◌≡◌, ◌<◌, ◌++◌, ◌∷◌, ◌↔◌, [], OnOk, OnErr, IfOk, IsNone, IsSome, IfSome, length, true, false, ◌==◌};
ghost use Rattle.std.specs.Prelude.{slice_get, Some};
ghost use Rattle.std.specs.List.{list_all};
ghost use Rattle.fca_model.specs.Sets.{size};
ghost use Rattle.fca_model.specs.Context.{with_row};
ghost use Rattle.fca_model.specs.Implications.{Rule, respects_all, holds};
ghost use Rattle.fca_model.specs.Questions.{open_questions, has_premise};
ghost use Rattle.fca_model.specs.Invariant.{IsAccepted, MayBeHeld};

use attr_bits::Attrs;
use derivation::Rows;
use fca_model::Memory;
use implication_closure::{ImplicationList, Question};
use next_level::Ahead;
pub use next_level::{LevelSearch, OneThread, SideBySide};
use open_level::{OpenLevel, open_level};
use questions::closes_all;
use rules::Rules;
use std::alloc::Global;
use std::marker::Model;

/// The rows, the rules, and the level whose questions are open.
pub struct LevelQueue {
    alloc: Global,
    rows: Rows,
    rules: Rules,
    level: OpenLevel,
}

/// Written out, so that dropping a queue is one call, and not the dropping of each list at each place.
impl Drop for LevelQueue {
    fn drop(self) {
        let Self {
            alloc: _,
            rows: _,
            rules: _,
            level: _,
        } = self;
    }
}

impl Model for LevelQueue {
    ghost use Rattle.std.specs.Prelude.{◌≡◌, ◌++◌};
    ghost use Rattle.next_level.specs.Among.{IsAhead};
    ghost use Rattle.level_queue.specs.Queue.{QueueModel, IsKeptQueue};

    ghost Value = { QueueModel };

    ghost view = { λ a. record { context = a.rows; known = a.rules.known; accepted = a.rules.accepted } };

    ghost invariant = { λ a. record {
      wide : a.rules.width ≡ a.rows.width;
      kept : IsKeptQueue a.rules.known a.rows a.level.size a.rules.accepted a.level.questions;
      ahead_wide : a.level.ahead.sets.width ≡ a.rows.width;
      ahead : IsAhead (a.rules.known ++ a.rules.accepted) a.rows a.level.size a.level.ahead.whole a.level.ahead.sets.rows;
    } };
}

impl LevelQueue {
    /// The queue of these rows, with nothing known and nothing accepted.
    pub fn open(alloc: Global, rows: &Rows) -> Result<LevelQueue, Memory>
        ensures { IfOk result (λ queue. queue ≡ record { context = rows.now; known = []; accepted = [] }) }
    {
        let known = ImplicationList::new(alloc, rows.width())?;
        LevelQueue::open_known(alloc, rows, &known)
    }

    /// The queue of these rows, with nothing accepted. Questions are asked only about sets that respect what is known.
    pub fn open_known(
        alloc: Global,
        rows: &Rows,
        known: &ImplicationList,
    ) -> Result<LevelQueue, Memory>
        requires wide { known.now.width ≡ rows.now.width }
        requires hold { list_all (holds rows.now) known.now.members ≡ true }
        ensures { IfOk result (λ queue. queue ≡ record { context = rows.now; known = known.now.members; accepted = [] }) }
    {
        LevelQueue::open_known_by(&OneThread, alloc, rows, known)
    }

    /// The queue of these rows, with nothing accepted, as `open_known` gives it. The search looks for the first level.
    pub fn open_known_by<S: LevelSearch>(
        search: &S,
        alloc: Global,
        rows: &Rows,
        known: &ImplicationList,
    ) -> Result<LevelQueue, Memory>
        requires wide { known.now.width ≡ rows.now.width }
        requires hold { list_all (holds rows.now) known.now.members ≡ true }
        ensures { IfOk result (λ queue. queue ≡ record { context = rows.now; known = known.now.members; accepted = [] }) }
    {
        let rows = rows.copy()?;
        let rules = Rules::new(alloc, known)?;
        let nothing = Ahead::none(alloc, rows.width())?;
        let first = open_level(search, alloc, &rows, rules.all(), &nothing)?;
        Ok(LevelQueue {
            alloc,
            rows,
            rules,
            level: first,
        })
    }

    /// The open questions, in lectic order of their premises.
    pub fn open_questions(&self) -> &[Question]
        ensures { result.now ≡ open_questions self.now.known self.now.context self.now.accepted }
    {
        self.level.questions.as_slice()
    }

    /// The accepted implications, in the order in which they were accepted.
    pub fn accepted(&self) -> &ImplicationList
        ensures list { result.now ≡ record { width = self.now.context.width; members = self.now.accepted } }
        ensures sound { IsAccepted self.now.known self.now.context self.now.accepted }
    {
        self.rules.accepted()
    }

    /// The known implications and then the accepted ones.
    pub fn rules(&self) -> &ImplicationList
        ensures list { result.now ≡ record { width = self.now.context.width; members = self.now.known ++ self.now.accepted } }
        ensures known { list_all (holds self.now.context) self.now.known ≡ true }
    {
        self.rules.all()
    }

    /// The rows.
    pub fn rows(&self) -> &Rows
        ensures { result.now ≡ self.now.context }
    {
        &self.rows
    }

    /// The size of the premises of the open questions.
    pub fn level(&self) -> Option<u32>
        ensures none { IsNone result ↔ (open_questions self.now.known self.now.context self.now.accepted ≡ []) }
        ensures size { IfSome result (λ k. list_all (λ q. size q.premise == k) (open_questions self.now.known self.now.context self.now.accepted) ≡ true) }
    {
        if self.level.questions.as_slice().is_empty() {
            None
        } else {
            Some(self.level.size)
        }
    }

    /// The place of the question among the open ones, if it is one. A held question is open until a row refutes it or its premise is accepted.
    pub fn place_of(&self, question: &Question) -> Option<usize>
        ensures in_range { IfSome result (λ i. i < length (open_questions self.now.known self.now.context self.now.accepted)) }
        ensures found { IfSome result (λ i. slice_get (open_questions self.now.known self.now.context self.now.accepted) i ≡ Some question.now) }
        ensures held { MayBeHeld self.now.known self.now.context self.now.accepted question.now → holds self.now.context question.now ≡ true
            → has_premise self.now.accepted question.now.premise ≡ false → IsSome result }
    {
        self.level.questions.place_of(question)
    }

    /// Records a row.
    pub fn take_row(&mut self, row: Attrs) -> Result<(), Memory>
        requires wide { length row ≡ self.old.context.width }
        requires respecting { respects_all (self.old.known ++ self.old.accepted) row ≡ true }
        ensures ok { OnOk result (self.new ≡ record { context = with_row self.old.context row; known = self.old.known; accepted = self.old.accepted }) }
        ensures err { OnErr result (self.new ≡ self.old) }
    {
        self.take_row_by(&OneThread, row)
    }

    /// Records a row. The search looks for the next level.
    pub fn take_row_by<S: LevelSearch>(&mut self, search: &S, row: Attrs) -> Result<(), Memory>
        requires wide { length row ≡ self.old.context.width }
        requires respecting { respects_all (self.old.known ++ self.old.accepted) row ≡ true }
        ensures ok { OnOk result (self.new ≡ record { context = with_row self.old.context row; known = self.old.known; accepted = self.old.accepted }) }
        ensures err { OnErr result (self.new ≡ self.old) }
    {
        self.rows.push(row)?;
        if !closes_all(self.level.questions.as_slice(), &row) {
            self.level.questions.narrow(&row);
            return Ok(());
        }
        match open_level(
            search,
            self.alloc,
            &self.rows,
            self.rules.all(),
            &self.level.ahead,
        ) {
            Ok(next) => {
                self.level = next;
                Ok(())
            }
            Err(error) => {
                self.rows.pop();
                Err(error)
            }
        }
    }

    /// Accepts the open question at place i.
    pub fn accept(&mut self, i: usize) -> Result<(), Memory>
        requires { i < length (open_questions self.old.known self.old.context self.old.accepted) }
        ensures ok { (question : Rule) → slice_get (open_questions self.old.known self.old.context self.old.accepted) i ≡ Some question
            → OnOk result (self.new ≡ record { context = self.old.context; known = self.old.known; accepted = self.old.accepted ++ question ∷ [] }) }
        ensures err { OnErr result (self.new ≡ self.old) }
    {
        self.accept_by(&OneThread, i)
    }

    /// Accepts the open question at place i. The search looks for the next level.
    pub fn accept_by<S: LevelSearch>(&mut self, search: &S, i: usize) -> Result<(), Memory>
        requires { i < length (open_questions self.old.known self.old.context self.old.accepted) }
        ensures ok { (question : Rule) → slice_get (open_questions self.old.known self.old.context self.old.accepted) i ≡ Some question
            → OnOk result (self.new ≡ record { context = self.old.context; known = self.old.known; accepted = self.old.accepted ++ question ∷ [] }) }
        ensures err { OnErr result (self.new ≡ self.old) }
    {
        let question = self.level.questions.get(i);
        self.rules.push(&question)?;
        if self.level.questions.as_slice().len() > 1 {
            self.level.questions.take_out(i);
            return Ok(());
        }
        match open_level(
            search,
            self.alloc,
            &self.rows,
            self.rules.all(),
            &self.level.ahead,
        ) {
            Ok(next) => {
                self.level = next;
                Ok(())
            }
            Err(error) => {
                self.rules.pop();
                Err(error)
            }
        }
    }
}
