//! The exploration as the value of a turn lock.

ghost use Rattle.std.specs.Prelude.{◌≡◌};

use explore_state::{Entry, Event, Explore, Reply};
use fca_model::Memory;
use std::marker::Model;
use turn_lock::Logged;

/// What the exploration was opened with, as contracts see it. No value of this type is made.
pub struct OpeningModel {
    explore: Explore,
}

impl Model for OpeningModel {
    ghost use Rattle.explore_state.specs.History.{Opening};

    ghost Value = { Opening };

    ghost view = { λ s. s.explore.opening };
}

/// What a look at an exploration shows.
#[derive(Clone, Copy, Debug, PartialEq, Eq)]
pub struct Seen {
    /// The number of events that were replied to.
    pub events: usize,

    /// The number of rows: those of the table and the recorded ones together.
    pub rows: usize,
    /// The number of accepted implications.
    pub accepted: usize,

    /// The number of open questions.
    pub questions: usize,
}

/// An exploration that experts share.
#[derive(Drop)]
pub struct SharedExplore {
    pub(crate) explore: Explore,
}

impl Logged for SharedExplore {
    type Event = Event;

    type Reply = Reply;

    type Entry = Entry;

    type Seen = Seen;

    type Base = OpeningModel;

    ghost use Rattle.std.proofs.Common.{refl};
    ghost use Rattle.std.specs.Prelude.{◌≡◌};
    ghost use Rattle.fca_model.specs.Exploration.{expert_of};
    ghost use Rattle.explore_state.specs.History.{Admits};
    ghost use Rattle.expert_gate.specs.Histories.{IsHistory, by_expert, history_front};
    ghost use Rattle.expert_gate.specs.Turns.{counts_after};

    ghost base = { λ s. s.explore.opening };

    ghost history = { λ s. s.explore.journal };

    ghost legal = { IsHistory };

    ghost shows = { λ opening history seen. seen ≡ counts_after opening history };

    ghost admits = { Admits };

    ghost entry = { λ event reply. record { event = event; reply = reply } };

    ghost number = { expert_of };

    ghost by = { by_expert };

    ghost by_entry = { λ _ _. refl };

    ghost prefix = { history_front };

    fn apply(&mut self, event: Event) -> Result<Reply, Memory> {
        let reply = self.explore.apply(event);
        let _journal = self.explore.journal();
        reply
    }

    fn seen(&self) -> Seen {
        Seen {
            events: self.explore.journal().len(),
            rows: self.explore.rows().len(),
            accepted: self.explore.accepted().len(),
            questions: self.explore.open_questions().len(),
        }
    }

    fn attest_legal(&self) {
        let _journal = self.explore.journal();
    }
}
