//! Explorations: the questions open in a table, what experts draw and answer, and the journal of it.
#![tactic(auto)]

ghost use Rattle.std.specs.Prelude.{◌≡◌, ◌≢◌, ◌≤◌, ◌<◌, ◌+◌, ◌↔◌, ◌⊎◌, ◌==◌, ℕ, [], None, Some, IsOk, IfOk, OnOk, OnErr, IfErr, IsErrOf};
ghost use Rattle.std.specs.Prelude.{IsNone, IfSome, true, false, vec_len, vec_capacity, All};
ghost use Rattle.std.specs.List.{list_all};
ghost use Rattle.fca_model.specs.Sets.{size};
ghost use Rattle.fca_model.specs.Implications.{Rule, holds};
ghost use Rattle.fca_model.specs.Invariant.{Among, IsAccepted, IsValid};
ghost use Rattle.fca_model.specs.declared.TheConstants.{MAX_EXPERTS};
ghost use Rattle.fca_model.specs.declared.Event.TheVariants.{Draw, Confirm, Row, Leave};
ghost use Rattle.fca_model.specs.declared.Reply.TheVariants.{Ask, Done, AllHeld};
ghost use Rattle.fca_model.specs.Exploration.{plain, rules_of, reply_to, held_by, is_expert, IsLegal};
ghost use Rattle.fca_model.specs.Widths.{HasWideReply};
ghost use Rattle.exploration_terms.specs.Recorded.{is_recorded};
ghost use Rattle.exploration_terms.specs.Settings.{settings_of};
ghost use Rattle.explore_state.specs.History.{opening_state, state_of, open_of, Admits, IsStep, IsSame};
ghost use Rattle.explore_state.specs.Basis.{IsBasisBeside, HasRecordedRows};
ghost use Rattle.explore_state.specs.Faults.{open_fault};

mod changes;
mod fault;
mod held;
mod replies;

use crate::changes::change;
pub use crate::fault::{OpenFault, first_break};
use crate::fault::{is_expert, open_fault};
use crate::held::question_of;
use crate::replies::{reply_to_confirmation, reply_to_draw, reply_to_row};
use attr_bits::Attrs;
use context_table::Table;
use derivation::Rows;
pub use exploration_terms::{Entry, Event, ExpertNames, Hold, Reply, Settings};
use fca_model::{MAX_EXPERTS, Memory, Name};
use implication_closure::ImplicationList;
pub use implication_closure::{Implication, Question};
use level_queue::LevelQueue;
pub use level_queue::{LevelSearch, OneThread, SideBySide};
use std::alloc::{AllocError, Global};
use std::marker::Model;

/// A table that is explored by experts.
pub struct Explore {
    table: Table,
    experts: u8,
    settings: Settings,
    queue: LevelQueue,
    held: Vec<Hold>,
    journal: Vec<Entry>,
}

/// Written by hand: to drop an exploration is then one call, and not the code of each list at every exit.
impl Drop for Explore {
    fn drop(self) {
        let Self {
            table: _,
            experts: _,
            settings: _,
            queue: _,
            held: _,
            journal: _,
        } = self;
    }
}

impl Model for Explore {
    ghost use Rattle.std.specs.Prelude.{◌≡◌, ◌≤◌, ◌-◌, true, vec_len, vec_capacity};
    ghost use Rattle.fca_model.specs.declared.TheConstants.{MAX_EXPERTS};
    ghost use Rattle.fca_model.specs.Exploration.{is_expert};
    ghost use Rattle.explore_state.specs.History.{ExploreModel};
    ghost use Rattle.explore_state.specs.Kept.{IsKept};
    ghost use Rattle.exploration_terms.specs.Settings.{settings_of};

    ghost Value = { ExploreModel };

    ghost view = { λ a. record {
      opening = record { table = a.table; experts = a.experts; settings = settings_of a.settings };
      journal = a.journal.items;
      spare = vec_capacity a.journal - vec_len a.journal;
    } };

    ghost invariant = { λ a. record {
      kept : IsKept (record { table = a.table; experts = a.experts; settings = settings_of a.settings })
          a.journal.items a.queue.context a.queue.accepted a.held.items;
      known : a.queue.known ≡ a.settings.known.members;
      wide : a.settings.known.width ≡ a.table.context.width;
      holders : is_expert a.settings.holders ≡ true;
      room : MAX_EXPERTS ≤ vec_capacity a.held;
    } };
}

impl Explore {
    /// Opens an exploration of the table by experts numbered from 1. Nothing is known, accepted or held, and the journal is
    /// empty.
    pub fn open(alloc: Global, table: Table, experts: u8) -> Result<Explore, OpenFault>
        ensures opening { IfOk result (λ explore. explore.opening
            ≡ record { table = table; experts = experts; settings = plain }) }
        ensures journal { IfOk result (λ explore. explore.journal ≡ []) }
        ensures bad_experts { IsErrOf result (OpenFault.BadExperts experts) ↔ (is_expert experts ≡ false) }
        ensures count { (n : ℕ) → IsErrOf result (OpenFault.BadExperts n) → n ≡ experts }
        ensures no_other { IfErr result (λ fault. (fault ≡ OpenFault.BadExperts experts) ⊎ (fault ≡ OpenFault.Memory)) }
    {
        if !is_expert(experts) {
            return Err(OpenFault::BadExperts(experts));
        }
        let settings = Settings::plain(alloc, table.rows().width())?;
        Explore::open_with(alloc, table, experts, settings)
    }

    /// Opens an exploration in which some implications are known. Only sets that respect them are asked about.
    pub fn open_known(
        alloc: Global,
        table: Table,
        experts: u8,
        known: ImplicationList,
    ) -> Result<Explore, OpenFault>
        requires { known.width ≡ table.context.width }
        ensures opening { IfOk result (λ explore. explore.opening ≡ record {
          table = table;
          experts = experts;
          settings = record { known = known.members; holders = MAX_EXPERTS; expert_names = [] };
        }) }
        ensures journal { IfOk result (λ explore. explore.journal ≡ []) }
        ensures refused { IfSome (open_fault table.context experts
            (record { known = known.members; holders = MAX_EXPERTS; expert_names = [] })) (IsErrOf result) }
        ensures no_other { IfErr result (λ fault. (fault ≡ OpenFault.Memory) ⊎ (open_fault table.context experts
            (record { known = known.members; holders = MAX_EXPERTS; expert_names = [] }) ≡ Some fault)) }
    {
        let settings = Settings {
            known,
            holders: MAX_EXPERTS,
            names: ExpertNames::new(alloc),
        };
        Explore::open_with(alloc, table, experts, settings)
    }

    /// Opens an exploration of the table under the settings.
    pub fn open_with(
        alloc: Global,
        table: Table,
        experts: u8,
        settings: Settings,
    ) -> Result<Explore, OpenFault>
        requires { settings.known.width ≡ table.context.width }
        ensures opening { IfOk result (λ explore. explore.opening
            ≡ record { table = table; experts = experts; settings = settings_of settings }) }
        ensures journal { IfOk result (λ explore. explore.journal ≡ []) }
        ensures refused { IfSome (open_fault table.context experts (settings_of settings)) (IsErrOf result) }
        ensures no_other { IfErr result (λ fault. (fault ≡ OpenFault.Memory)
            ⊎ (open_fault table.context experts (settings_of settings) ≡ Some fault)) }
    {
        Explore::open_with_by(&OneThread, alloc, table, experts, settings)
    }

    /// Opens an exploration of the table under the settings as `open_with` does. The search looks for the first level.
    pub fn open_with_by<S: LevelSearch>(
        search: &S,
        alloc: Global,
        table: Table,
        experts: u8,
        settings: Settings,
    ) -> Result<Explore, OpenFault>
        requires { settings.known.width ≡ table.context.width }
        ensures opening { IfOk result (λ explore. explore.opening
            ≡ record { table = table; experts = experts; settings = settings_of settings }) }
        ensures journal { IfOk result (λ explore. explore.journal ≡ []) }
        ensures refused { IfSome (open_fault table.context experts (settings_of settings)) (IsErrOf result) }
        ensures no_other { IfErr result (λ fault. (fault ≡ OpenFault.Memory)
            ⊎ (open_fault table.context experts (settings_of settings) ≡ Some fault)) }
    {
        let (queue, held) = begin(search, alloc, &table, experts, &settings)?;
        Ok(Explore {
            table,
            experts,
            settings,
            queue,
            held,
            journal: Vec::new(alloc),
        })
    }

    /// Does what the event asks, and puts it with its reply on the journal. On `Memory` a name that was
    /// handed in is dropped.
    pub fn apply(&mut self, event: Event) -> Result<Reply, Memory>
        requires { Admits self.old.opening event }
        ensures ok { IfOk result (λ reply. IsStep self.old self.new event reply) }
        ensures err { OnErr result (IsSame self.old self.new) }
        ensures spare { 1 ≤ self.old.spare → is_recorded (reply_to (state_of self.old) event) ≡ false
            → IsOk result × (self.new.spare + 1 ≡ self.old.spare) }
    {
        self.apply_by(&OneThread, event)
    }

    /// Does what the event asks as `apply` does. The search looks for the next level.
    pub fn apply_by<S: LevelSearch>(&mut self, search: &S, event: Event) -> Result<Reply, Memory>
        requires { Admits self.old.opening event }
        ensures ok { IfOk result (λ reply. IsStep self.old self.new event reply) }
        ensures err { OnErr result (IsSame self.old self.new) }
        ensures spare { 1 ≤ self.old.spare → is_recorded (reply_to (state_of self.old) event) ≡ false
            → IsOk result × (self.new.spare + 1 ≡ self.old.spare) }
    {
        let reply = self.reply_to(&event);
        make_room(&mut self.journal)?;
        change(search, &mut self.queue, &mut self.held, &event, &reply)?;
        self.journal.push_reserved(Entry {
            event,
            reply: copy_of(&reply),
        });
        Ok(reply)
    }

    /// The expert gives its hold back and asks for a question.
    pub fn draw(&mut self, e: u8) -> Result<Reply, Memory>
        requires { Admits self.old.opening (Draw e) }
        ensures ok { IfOk result (λ reply. IsStep self.old self.new (Draw e) reply) }
        ensures done { IfOk result (λ reply. (reply ≡ Done) ↔ (open_of self.old ≡ [])) }
        ensures asked { IfOk result (λ reply. (q : Rule) → reply ≡ Ask q
            → Among (open_of self.old) q) }
        ensures free { self.old.opening.settings.holders ≡ MAX_EXPERTS → IfOk result (λ reply. reply ≢ AllHeld) }
        ensures err { OnErr result (IsSame self.old self.new) }
        ensures spare { 1 ≤ self.old.spare
            → IsOk result × (self.new.spare + 1 ≡ self.old.spare) }
    {
        let _table = &self.table;
        self.apply(Event::Draw { expert: e })
    }

    /// The expert confirms the question that it holds.
    pub fn confirm(&mut self, e: u8) -> Result<Reply, Memory>
        requires { Admits self.old.opening (Confirm e) }
        ensures ok { IfOk result (λ reply. IsStep self.old self.new (Confirm e) reply) }
        ensures err { OnErr result (IsSame self.old self.new) }
        ensures spare { 1 ≤ self.old.spare → is_recorded (reply_to (state_of self.old) (Confirm e)) ≡ false
            → IsOk result × (self.new.spare + 1 ≡ self.old.spare) }
    {
        self.apply(Event::Confirm { expert: e })
    }

    /// The expert gives a counterexample to the question that it holds. On `Memory` the name is dropped.
    pub fn row(&mut self, e: u8, name: Name, row: Attrs) -> Result<Reply, Memory>
        requires { Admits self.old.opening (Row e name row) }
        ensures ok { IfOk result (λ reply. IsStep self.old self.new (Row e name row) reply) }
        ensures err { OnErr result (IsSame self.old self.new) }
        ensures spare { 1 ≤ self.old.spare
            → is_recorded (reply_to (state_of self.old) (Row e name row)) ≡ false
            → IsOk result × (self.new.spare + 1 ≡ self.old.spare) }
    {
        self.apply(Event::Row {
            expert: e,
            name,
            row,
        })
    }

    /// The expert gives its hold back.
    pub fn leave(&mut self, e: u8) -> Result<Reply, Memory>
        requires { Admits self.old.opening (Leave e) }
        ensures ok { IfOk result (λ reply. IsStep self.old self.new (Leave e) reply) }
        ensures err { OnErr result (IsSame self.old self.new) }
        ensures spare { 1 ≤ self.old.spare
            → IsOk result × (self.new.spare + 1 ≡ self.old.spare) }
    {
        self.apply(Event::Leave { expert: e })
    }

    /// Makes room on the journal for k more entries.
    pub fn reserve(&mut self, k: usize) -> Result<(), Memory>
        ensures ok { OnOk result (k ≤ self.new.spare) }
        ensures same { IsSame self.old self.new }
    {
        self.journal.reserve(k)?;
        Ok(())
    }

    /// The table of the opening.
    pub fn table(&self) -> &Table
        ensures { result.now ≡ self.now.opening.table }
    {
        &self.table
    }

    /// The number of experts.
    pub fn experts(&self) -> u8
        ensures number { result ≡ self.now.opening.experts }
        ensures limits { is_expert result ≡ true }
    {
        self.experts
    }

    /// What the exploration was opened with besides its table.
    pub fn settings(&self) -> &Settings
        ensures settings { settings_of result.now ≡ self.now.opening.settings }
        ensures width { result.now.known.width ≡ self.now.opening.table.context.width }
        ensures holders { is_expert result.now.holders ≡ true }
    {
        &self.settings
    }

    /// The implications that were known beforehand.
    pub fn known(&self) -> &[Implication]
        ensures { result.now ≡ self.now.opening.settings.known }
    {
        self.settings.known.as_slice()
    }

    /// The rows of the table and then the recorded ones.
    pub fn rows(&self) -> &Rows
        ensures rows { result.now ≡ (state_of self.now).context }
        ensures recorded { HasRecordedRows self.now.opening.table.context result.now
            (state_of self.now).accepted }
    {
        self.queue.rows()
    }

    /// The accepted implications, in the order in which they were accepted.
    pub fn accepted(&self) -> &[Implication]
        ensures accepted { result.now ≡ (state_of self.now).accepted }
        ensures members { IsAccepted self.now.opening.settings.known (state_of self.now).context result.now }
        ensures hold { list_all (holds (state_of self.now).context) result.now ≡ true }
        ensures basis { open_of self.now ≡ []
            → IsBasisBeside self.now.opening.settings.known (state_of self.now).context result.now }
    {
        let _rules = self.queue.rules();
        self.queue.accepted().as_slice()
    }

    /// The known implications and then the accepted ones. Replies number implications by their places here.
    pub fn rules(&self) -> &[Implication]
        ensures { result.now ≡ rules_of (state_of self.now) }
    {
        self.queue.rules().as_slice()
    }

    /// The open questions, in lectic order of their premises.
    pub fn open_questions(&self) -> &[Question]
        ensures { result.now ≡ open_of self.now }
    {
        self.queue.open_questions()
    }

    /// The size of the premises of the open questions, or `None` if no question is open.
    pub fn level(&self) -> Option<u32>
        ensures none { IsNone result ↔ (open_of self.now ≡ []) }
        ensures size { IfSome result (λ k.
            list_all (λ q. size q.premise == k) (open_of self.now) ≡ true) }
    {
        self.queue.level()
    }

    /// The question that the expert holds, if any.
    pub fn held(&self, e: u8) -> Option<Question>
        ensures { result ≡ held_by e (state_of self.now).held }
    {
        question_of(&self.held, e)
    }

    /// Each event with its reply, the oldest first.
    pub fn journal(&self) -> &[Entry]
        ensures entries { result.now ≡ self.now.journal }
        ensures legal { IsLegal (opening_state self.now.opening) result.now }
        ensures valid { IsValid (state_of self.now) }
        ensures wide { All (λ entry. HasWideReply self.now.opening.table.context.width entry.reply) self.now.journal }
    {
        let _rows = self.table.rows();
        let _known = self.settings.known.as_slice();
        &self.journal
    }

    /// The reply to the event.
    fn reply_to(&self, event: &Event) -> Reply
        ensures { result ≡ reply_to (state_of self.now) event.now }
    {
        match event {
            Event::Draw { expert } => reply_to_draw(
                self.queue.open_questions(),
                &self.held,
                *expert,
                self.settings.holders as usize,
            ),
            Event::Confirm { expert } => match question_of(&self.held, *expert) {
                Some(question) => reply_to_confirmation(
                    &self.queue,
                    self.settings.known.as_slice(),
                    &question,
                ),
                None => Reply::NotHeld,
            },
            Event::Row { expert, row, .. } => match question_of(&self.held, *expert) {
                Some(question) => {
                    reply_to_row(self.queue.rows(), self.queue.rules(), &question, row)
                }
                None => Reply::NotHeld,
            },
            Event::Leave { .. } => Reply::Left,
        }
    }
}

/// The queue that an exploration of the table begins with, whose first level the search looks for, and room for the questions that its experts hold.
fn begin<S: LevelSearch>(
    search: &S,
    alloc: Global,
    table: &Table,
    experts: u8,
    settings: &Settings,
) -> Result<(LevelQueue, Vec<Hold>), OpenFault>
    requires { settings.now.known.width ≡ table.now.context.width }
    ensures queue { IfOk result (λ start. start.0
        ≡ record { context = table.now.context; known = settings.now.known.members; accepted = [] }) }
    ensures held { IfOk result (λ start. start.1.items ≡ []) }
    ensures room { IfOk result (λ start. MAX_EXPERTS ≤ vec_capacity start.1) }
    ensures sound { OnOk result (open_fault table.now.context experts (settings_of settings.now) ≡ None) }
    ensures refused { IfSome (open_fault table.now.context experts (settings_of settings.now)) (IsErrOf result) }
    ensures no_other { IfErr result (λ fault. (fault ≡ OpenFault.Memory)
        ⊎ (open_fault table.now.context experts (settings_of settings.now) ≡ Some fault)) }
{
    if let Some(fault) = open_fault(table, experts, settings) {
        return Err(fault);
    }
    let _known = settings.known.as_slice();
    let held = Vec::with_capacity(alloc, MAX_EXPERTS as usize)?;
    let queue = LevelQueue::open_known_by(search, alloc, table.rows(), &settings.known)?;
    Ok((queue, held))
}

/// Makes room for one more entry.
fn make_room(journal: &mut Vec<Entry>) -> Result<(), AllocError>
    ensures entries { journal.new.items ≡ journal.old.items }
    ensures len { vec_len journal.new ≡ vec_len journal.old }
    ensures ok { OnOk result (vec_len journal.new < vec_capacity journal.new) }
    ensures spare { vec_len journal.old < vec_capacity journal.old
        → IsOk result × (vec_capacity journal.new ≡ vec_capacity journal.old) }
{
    if journal.len() == journal.capacity() {
        journal.reserve(1)?;
    }
    Ok(())
}

/// A copy of the reply. A value that holds sets can be passed on by value only once.
fn copy_of(reply: &Reply) -> Reply
    ensures { result ≡ reply.now }
{
    *reply
}
