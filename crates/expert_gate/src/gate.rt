//! The gate: opening it over an exploration, the turns of experts, and closing it.

ghost use Rattle.std.specs.Prelude.{◌≡◌, ◌≤◌, ◌↔◌, true, [], IsErrOf, IfOk, IfErr, All, map, length};
ghost use Rattle.fca_model.specs.declared.Event.TheVariants.{Draw, Confirm, Row, Leave};
ghost use Rattle.fca_model.specs.Exploration.{expert_of, has_row_of_width};
ghost use Rattle.fca_model.specs.declared.TheConstants.{MAX_TURNS};
ghost use Rattle.turn_lock.specs.Passes.{badge, roll, Belongs, IsFresh};
ghost use Rattle.turn_lock.specs.declared.fault.TurnFault.TheVariants as fault;
ghost use Rattle.expert_gate.specs.Turns.{counts_after, MakesTurn, Looks, HasClosed};

use crate::searching::SearchHelper;
use crate::shared::{Seen, SharedExplore};
use attr_bits::Attrs;
use explore_state::{Event, Explore, LevelSearch, OneThread, Reply};
use fca_model::{Memory, Name};
use std::alloc::Global;
use std::marker::Model;
use std::sync::Wait;
use turn_lock::{Pass, TurnFault, TurnLock};

/// The pass of one expert. It has the expert's number.
pub type ExpertPass = Pass<SharedExplore>;

/// One exploration that experts share. Contracts see it as its lock. The lock's base is the opening of the exploration, and it has a
/// pass for each expert.
#[derive(Drop)]
pub struct Gate {
    width: u32,
    lock: TurnLock<SharedExplore>,
}

impl Model for Gate {
    ghost use Rattle.std.specs.Prelude.{◌≡◌};
    ghost use Rattle.explore_state.specs.History.{Opening};
    ghost use Rattle.turn_lock.specs.Passes.{Lock};

    ghost Value = { Lock Opening };

    ghost view = { λ s. s.lock };

    ghost invariant = { λ s. record {
      width : s.width ≡ s.lock.base.table.context.width;
      experts : s.lock.passes ≡ s.lock.base.experts;
    } };
}

impl Gate {
    /// Opens the gate of a new exploration. Each of its experts gets a pass, in their order, and may make `turns` turns.
    pub fn open(
        alloc: Global,
        explore: Explore,
        turns: u64,
    ) -> Result<(Gate, Vec<ExpertPass>), Memory>
        requires turns { (1 ≤ turns) × (turns ≤ MAX_TURNS) }
        requires new { explore.journal ≡ [] }
        ensures opening { IfOk result (λ r. r.0.base ≡ explore.opening) }
        ensures counts { IfOk result (λ r. (r.0.turns ≡ turns) × (r.0.passes ≡ explore.opening.experts)) }
        ensures passes { IfOk result (λ r. map badge r.1.items ≡ roll r.0) }
        ensures belong { IfOk result (λ r. All (Belongs r.0) r.1.items) }
        ensures fresh { IfOk result (λ r. All IsFresh r.1.items) }
    {
        let width = explore.table().rows().width();
        let experts = explore.experts();
        let (lock, passes) = TurnLock::new(alloc, SharedExplore { explore }, experts, turns)?;
        Ok((Gate { width, lock }, passes))
    }

    /// The number of attributes.
    pub fn width(&self) -> u32
        ensures { result ≡ self.now.base.table.context.width }
    {
        self.width
    }

    /// The pass's expert gives back what it holds, and asks for a question.
    pub fn draw<R: Wait>(&self, rt: &R, pass: &mut ExpertPass) -> Result<Reply, TurnFault>
        requires lock { Belongs self.now pass.old }
        ensures { MakesTurn self.now (Draw pass.old.number) pass.old result pass.new }
    {
        let expert = pass.number();
        self.turn(rt, &OneThread, pass, Event::Draw { expert })
    }

    /// The pass's expert confirms the question that it holds.
    pub fn confirm<R: Wait>(&self, rt: &R, pass: &mut ExpertPass) -> Result<Reply, TurnFault>
        requires lock { Belongs self.now pass.old }
        ensures { MakesTurn self.now (Confirm pass.old.number) pass.old result pass.new }
    {
        self.confirm_by(rt, &OneThread, pass)
    }

    /// Confirms as `confirm` does. The search looks for the next level.
    pub fn confirm_by<R: Wait, S: LevelSearch>(
        &self,
        rt: &R,
        search: &S,
        pass: &mut ExpertPass,
    ) -> Result<Reply, TurnFault>
        requires lock { Belongs self.now pass.old }
        ensures { MakesTurn self.now (Confirm pass.old.number) pass.old result pass.new }
    {
        let expert = pass.number();
        self.turn(rt, search, pass, Event::Confirm { expert })
    }

    /// The pass's expert answers with a counterexample: an object of this name, with this row.
    pub fn row<R: Wait>(
        &self,
        rt: &R,
        pass: &mut ExpertPass,
        name: Name,
        row: Attrs,
    ) -> Result<Reply, TurnFault>
        requires lock { Belongs self.now pass.old }
        requires width { length row ≡ self.now.base.table.context.width }
        ensures { MakesTurn self.now (Row pass.old.number name row) pass.old result pass.new }
    {
        self.row_by(rt, &OneThread, pass, name, row)
    }

    /// Answers as `row` does. The search looks for the next level.
    pub fn row_by<R: Wait, S: LevelSearch>(
        &self,
        rt: &R,
        search: &S,
        pass: &mut ExpertPass,
        name: Name,
        row: Attrs,
    ) -> Result<Reply, TurnFault>
        requires lock { Belongs self.now pass.old }
        requires width { length row ≡ self.now.base.table.context.width }
        ensures { MakesTurn self.now (Row pass.old.number name row) pass.old result pass.new }
    {
        let expert = pass.number();
        self.turn(rt, search, pass, Event::Row { expert, name, row })
    }

    /// The pass's expert gives back what it holds.
    pub fn leave<R: Wait>(&self, rt: &R, pass: &mut ExpertPass) -> Result<Reply, TurnFault>
        requires lock { Belongs self.now pass.old }
        ensures { MakesTurn self.now (Leave pass.old.number) pass.old result pass.new }
    {
        let expert = pass.number();
        self.turn(rt, &OneThread, pass, Event::Leave { expert })
    }

    /// One turn with an event of the pass's expert. The search looks for the next level.
    fn turn<R: Wait, S: LevelSearch>(
        &self,
        rt: &R,
        search: &S,
        pass: &mut ExpertPass,
        event: Event,
    ) -> Result<Reply, TurnFault>
        requires lock { Belongs self.now pass.old }
        requires expert { expert_of event ≡ pass.old.number }
        requires width { has_row_of_width self.now.base.table.context.width event ≡ true }
        ensures { MakesTurn self.now event pass.old result pass.new }
    {
        self.lock
            .with_turn_by(rt, &SearchHelper { search }, pass, event)
    }

    /// One turn that only looks. The pass stays one of this gate's.
    pub fn see<R: Wait>(&self, rt: &R, pass: &mut ExpertPass) -> Result<Seen, TurnFault>
        requires lock { Belongs self.now pass.old }
        ensures same { badge pass.new ≡ badge pass.old }
        ensures looked { IfOk result (λ seen. Looks self.now.base pass.old pass.new × (seen ≡ counts_after self.now.base pass.new.seen)) }
        ensures only { IfErr result (λ e. e ≡ fault.Spent) }
        ensures spent { IsErrOf result fault.Spent ↔ (pass.old.made ≡ pass.old.turns) }
        ensures unchanged { IsErrOf result fault.Spent → pass.new ≡ pass.old }
        ensures within { pass.old.made ≤ pass.old.turns }
    {
        self.lock.see(rt, pass)
    }

    /// Takes the passes back, in their order, and gives the exploration.
    pub fn close(self, passes: Vec<ExpertPass>) -> Explore
        requires passes { map badge passes.items ≡ roll self }
        ensures opening { result.opening ≡ self.base }
        ensures entries { HasClosed self.base result.journal passes.items }
    {
        self.lock.close(passes).explore
    }
}
