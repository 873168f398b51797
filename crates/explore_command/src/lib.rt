//! The commands `explore` and `survey`: the oracles of experts' tables explore a table through one gate.
#![tactic(auto)]

mod exploring;
mod names;
mod start;
mod surveys;

pub use exploring::explore;
pub use start::{ExploreStart, load_explore_start};
pub use surveys::survey;
