//! A lock whose holders take turns in the order of their tickets, and whose value changes by logged events alone.
//!
//! Word 0 of an `atomic_table` counts the tickets that were drawn, word 1 the turns that have ended, and its one slot
//! holds the value. A pass draws a ticket, waits until word 1 shows it, changes the value in the slot, which is then its
//! own, and ends its turn. `specs/Turns.antt` has the rule that every step keeps.
#![tactic(auto)]

mod applies;
mod fault;
mod lock;
mod logged;
mod pass;
mod queue;
mod rule;
mod turn;
mod view;

pub use applies::{Alone, Applies};
pub use fault::TurnFault;
pub use lock::TurnLock;
pub use logged::Logged;
pub use pass::Pass;
pub use view::View;
