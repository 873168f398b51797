//! Desks of an expert who has the exploration alone. Nothing waits, and turns are not counted.

ghost use Rattle.std.specs.Prelude.{◌≤◌};

use crate::desk::{Desk, Wide};
use attr_bits::Attrs;
use explore_state::{Explore, Reply};
use fca_model::{Memory, Name};
use turn_lock::TurnFault;

/// The desk of an expert who has the exploration alone.
#[derive(Drop)]
pub struct Solo<'a> {
    pub explore: &'a mut Explore,
    pub expert: u8,
    pub ghost first: { 1 ≤ expert },
    pub ghost last: { expert ≤ explore.now.opening.experts },
}

impl<'a> Wide for Solo<'a> {
    ghost attribute_count = { λ s. s.explore.now.opening.table.context.width };

    fn width(&self) -> u32 {
        self.explore.table().rows().width()
    }
}

/// Each call says of the exploration what its own call says, so nobody else's event is put in beside the expert's.
impl<'a> Desk for Solo<'a> {
    ghost use Rattle.std.specs.Prelude.{◌≡◌, IfOk, OnErr, length};
    ghost use Rattle.fca_model.specs.declared.Event.TheVariants.{Draw, Confirm, Row, Leave};
    ghost use Rattle.explore_state.specs.History.{IsStep, IsSame};
    ghost use Rattle.expert_gate.specs.Desks.{alone_at, Plays};

    ghost state = { λ s. alone_at s.explore.now s.expert s.explore.ghost_name };

    fn draw(&mut self) -> Result<Reply, TurnFault>
        ensures turn { Plays self.old.explore.now.opening.table.context.width (Draw self.old.expert)
            (alone_at self.old.explore.now self.old.expert self.old.explore.ghost_name) result
            (alone_at self.new.explore.now self.new.expert self.new.explore.ghost_name) }
        ensures width { self.new.explore.now.opening.table.context.width ≡ self.old.explore.now.opening.table.context.width }
        ensures step { IfOk result (λ reply. IsStep self.old.explore.now self.new.explore.now (Draw self.old.expert) reply) }
        ensures unsaid { OnErr result (IsSame self.old.explore.now self.new.explore.now) }
    {
        let reply = self.explore.draw(self.expert);
        let _journal = self.explore.journal();
        match reply {
            Ok(reply) => Ok(reply),
            Err(Memory) => Err(TurnFault::Memory),
        }
    }

    fn confirm(&mut self) -> Result<Reply, TurnFault>
        ensures turn { Plays self.old.explore.now.opening.table.context.width (Confirm self.old.expert)
            (alone_at self.old.explore.now self.old.expert self.old.explore.ghost_name) result
            (alone_at self.new.explore.now self.new.expert self.new.explore.ghost_name) }
        ensures width { self.new.explore.now.opening.table.context.width ≡ self.old.explore.now.opening.table.context.width }
        ensures step { IfOk result (λ reply. IsStep self.old.explore.now self.new.explore.now (Confirm self.old.expert) reply) }
        ensures unsaid { OnErr result (IsSame self.old.explore.now self.new.explore.now) }
    {
        let reply = self.explore.confirm(self.expert);
        let _journal = self.explore.journal();
        match reply {
            Ok(reply) => Ok(reply),
            Err(Memory) => Err(TurnFault::Memory),
        }
    }

    fn row(&mut self, name: Name, row: Attrs) -> Result<Reply, TurnFault>
        requires { length row ≡ self.old.explore.now.opening.table.context.width }
        ensures turn { Plays self.old.explore.now.opening.table.context.width (Row self.old.expert name row)
            (alone_at self.old.explore.now self.old.expert self.old.explore.ghost_name) result
            (alone_at self.new.explore.now self.new.expert self.new.explore.ghost_name) }
        ensures width { self.new.explore.now.opening.table.context.width ≡ self.old.explore.now.opening.table.context.width }
        ensures step { IfOk result (λ reply. IsStep self.old.explore.now self.new.explore.now (Row self.old.expert name row) reply) }
        ensures unsaid { OnErr result (IsSame self.old.explore.now self.new.explore.now) }
    {
        let reply = self.explore.row(self.expert, name, row);
        let _journal = self.explore.journal();
        match reply {
            Ok(reply) => Ok(reply),
            Err(Memory) => Err(TurnFault::Memory),
        }
    }

    fn leave(&mut self) -> Result<Reply, TurnFault>
        ensures turn { Plays self.old.explore.now.opening.table.context.width (Leave self.old.expert)
            (alone_at self.old.explore.now self.old.expert self.old.explore.ghost_name) result
            (alone_at self.new.explore.now self.new.expert self.new.explore.ghost_name) }
        ensures width { self.new.explore.now.opening.table.context.width ≡ self.old.explore.now.opening.table.context.width }
        ensures step { IfOk result (λ reply. IsStep self.old.explore.now self.new.explore.now (Leave self.old.expert) reply) }
        ensures unsaid { OnErr result (IsSame self.old.explore.now self.new.explore.now) }
    {
        let reply = self.explore.leave(self.expert);
        let _journal = self.explore.journal();
        match reply {
            Ok(reply) => Ok(reply),
            Err(Memory) => Err(TurnFault::Memory),
        }
    }
}
