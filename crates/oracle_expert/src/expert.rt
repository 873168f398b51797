//! Experts, who answer the questions of an exploration.

ghost use Rattle.std.specs.Prelude.{◌≡◌, ℕ, IfOk, OnErr};

use attr_bits::Attrs;
use exploration_terms::Reply;
use fca_model::{Memory, Name};
use implication_closure::Question;
use std::alloc::Global;

/// An answer to a question.
#[derive(Drop)]
pub enum Answer {
    /// The question is true.
    Confirm,
    /// An object of this name, with this row, refutes it.
    Row { name: Name, row: Attrs },
}

/// One who answers questions and learns the replies to its answers.
pub trait Expert {
    ghost use Rattle.fca_model.specs.Implications.{Rule};
    ghost use Rattle.fca_model.specs.Exploration.{SetReply};
    ghost use Rattle.fca_model.specs.Widths.{IsWide};
    ghost use Rattle.oracle_expert.specs.declared.expert.Answer.{Answer};
    ghost use Rattle.oracle_expert.specs.Answers.{HasWideAnswer};

    /// What the expert remembers from one call to the next.
    type Memory;

    /// The memory of an expert.
    ghost memory: { Self → Self.Memory };

    /// The width of its questions.
    ghost width: { Self → ℕ };

    /// The memory before, the question, its answer and the memory after it.
    ghost answers: { Self.Memory → Rule → Answer → Self.Memory → Type 0 };

    /// The memory before, the reply to its last answer, and the memory after it.
    ghost learns: { Self.Memory → SetReply → Self.Memory → Type 0 };

    /// Answers the question.
    fn answer(&mut self, alloc: Global, question: &Question) -> Result<Answer, Memory>
        requires { IsWide (width self.old) question.now }
        ensures answers { IfOk result (λ answer. answers (memory self.old) question.now answer (memory self.new)) }
        ensures wide { IfOk result (HasWideAnswer (width self.old)) }
        ensures err { OnErr result (memory self.new ≡ memory self.old) }
        ensures width { width self.new ≡ width self.old };

    /// Learns the reply to the last answer. It is called once after each answer that a desk was given.
    fn told(&mut self, reply: &Reply)
        ensures learns { learns (memory self.old) reply.now (memory self.new) }
        ensures width { width self.new ≡ width self.old };
}
