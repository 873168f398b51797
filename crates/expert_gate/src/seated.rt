//! Desks at a gate: each expert works by its pass.

ghost use Rattle.turn_lock.specs.Passes.{Belongs};

use crate::desk::{Desk, Wide};
use crate::gate::{ExpertPass, Gate};
use attr_bits::Attrs;
use explore_state::{LevelSearch, Reply};
use fca_model::Name;
use std::sync::Wait;
use turn_lock::TurnFault;

/// The desk of an expert who works at a gate.
#[derive(Drop)]
pub struct Seated<'a, R, S> {
    pub rt: &'a R,
    /// The search that looks for the next level.
    pub search: &'a S,
    pub gate: &'a Gate,
    pub pass: &'a mut ExpertPass,
    pub ghost belongs: { Belongs gate.now pass.now },
}

impl<'a, R, S> Wide for Seated<'a, R, S> {
    ghost attribute_count = { λ s. s.gate.now.base.table.context.width };

    fn width(&self) -> u32 {
        self.gate.width()
    }
}

/// Each call says of the pass what the gate's call says.
impl<'a, R: Wait, S: LevelSearch> Desk for Seated<'a, R, S> {
    ghost use Rattle.std.specs.Prelude.{◌≡◌, length};
    ghost use Rattle.fca_model.specs.declared.Event.TheVariants.{Draw, Confirm, Row, Leave};
    ghost use Rattle.expert_gate.specs.Desks.{at_gate, Plays};
    ghost use Rattle.expert_gate.specs.Turns.{MakesTurn};

    ghost state = { λ s. at_gate s.gate.now s.pass.now s.pass.ghost_name };

    fn draw(&mut self) -> Result<Reply, TurnFault>
        ensures turn { Plays self.old.gate.now.base.table.context.width (Draw self.old.pass.now.number)
            (at_gate self.old.gate.now self.old.pass.now self.old.pass.ghost_name) result
            (at_gate self.new.gate.now self.new.pass.now self.new.pass.ghost_name) }
        ensures width { self.new.gate.now.base.table.context.width ≡ self.old.gate.now.base.table.context.width }
        ensures pass { MakesTurn self.old.gate.now (Draw self.old.pass.now.number) self.old.pass.now result self.new.pass.now }
    {
        self.gate.draw(self.rt, self.pass)
    }

    fn confirm(&mut self) -> Result<Reply, TurnFault>
        ensures turn { Plays self.old.gate.now.base.table.context.width (Confirm self.old.pass.now.number)
            (at_gate self.old.gate.now self.old.pass.now self.old.pass.ghost_name) result
            (at_gate self.new.gate.now self.new.pass.now self.new.pass.ghost_name) }
        ensures width { self.new.gate.now.base.table.context.width ≡ self.old.gate.now.base.table.context.width }
        ensures pass { MakesTurn self.old.gate.now (Confirm self.old.pass.now.number) self.old.pass.now result self.new.pass.now }
    {
        self.gate.confirm_by(self.rt, self.search, self.pass)
    }

    fn row(&mut self, name: Name, row: Attrs) -> Result<Reply, TurnFault>
        requires { length row ≡ self.old.gate.now.base.table.context.width }
        ensures turn { Plays self.old.gate.now.base.table.context.width (Row self.old.pass.now.number name row)
            (at_gate self.old.gate.now self.old.pass.now self.old.pass.ghost_name) result
            (at_gate self.new.gate.now self.new.pass.now self.new.pass.ghost_name) }
        ensures width { self.new.gate.now.base.table.context.width ≡ self.old.gate.now.base.table.context.width }
        ensures pass { MakesTurn self.old.gate.now (Row self.old.pass.now.number name row) self.old.pass.now result self.new.pass.now }
    {
        self.gate.row_by(self.rt, self.search, self.pass, name, row)
    }

    fn leave(&mut self) -> Result<Reply, TurnFault>
        ensures turn { Plays self.old.gate.now.base.table.context.width (Leave self.old.pass.now.number)
            (at_gate self.old.gate.now self.old.pass.now self.old.pass.ghost_name) result
            (at_gate self.new.gate.now self.new.pass.now self.new.pass.ghost_name) }
        ensures width { self.new.gate.now.base.table.context.width ≡ self.old.gate.now.base.table.context.width }
        ensures pass { MakesTurn self.old.gate.now (Leave self.old.pass.now.number) self.old.pass.now result self.new.pass.now }
    {
        self.gate.leave(self.rt, self.pass)
    }
}
