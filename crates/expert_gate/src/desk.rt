//! Desks: where one expert works.

ghost use Rattle.std.specs.Prelude.{◌≡◌, ℕ, length};

use attr_bits::Attrs;
use explore_state::Reply;
use fca_model::Name;
use turn_lock::TurnFault;

/// A thing with a number of attributes. It stands apart from `Desk`, since asking for the number never waits.
pub trait Wide {
    /// The number of attributes.
    ghost attribute_count: { Self → ℕ };

    /// Gives the number of attributes.
    fn width(&self) -> u32
        ensures { result ≡ attribute_count self.now };
}

/// Where one expert works: each event is one turn.
pub trait Desk: Wide {
    ghost use Rattle.fca_model.specs.declared.Event.TheVariants.{Draw, Confirm, Row, Leave};
    ghost use Rattle.expert_gate.specs.Desks.{DeskState, Plays};

    /// What contracts see of the desk: its expert, what it has seen and done, and the turns that are left.
    ghost state: { Self → DeskState };

    /// The expert gives back what it holds, and asks for a question.
    fn draw(&mut self) -> Result<Reply, TurnFault>
        ensures turn { Plays (Self.attribute_count self.old) (Draw (state self.old).number) (state self.old) result (state self.new) }
        ensures width { Self.attribute_count self.new ≡ Self.attribute_count self.old };

    /// The expert confirms the question that it holds.
    fn confirm(&mut self) -> Result<Reply, TurnFault>
        ensures turn { Plays (Self.attribute_count self.old) (Confirm (state self.old).number) (state self.old) result (state self.new) }
        ensures width { Self.attribute_count self.new ≡ Self.attribute_count self.old };

    /// The expert answers with a counterexample: an object of this name, with this row.
    fn row(&mut self, name: Name, row: Attrs) -> Result<Reply, TurnFault>
        requires { length row ≡ Self.attribute_count self.old }
        ensures turn { Plays (Self.attribute_count self.old) (Row (state self.old).number name row) (state self.old) result (state self.new) }
        ensures width { Self.attribute_count self.new ≡ Self.attribute_count self.old };

    /// The expert gives back what it holds.
    fn leave(&mut self) -> Result<Reply, TurnFault>
        ensures turn { Plays (Self.attribute_count self.old) (Leave (state self.old).number) (state self.old) result (state self.new) }
        ensures width { Self.attribute_count self.new ≡ Self.attribute_count self.old };
}
