//! One exploration that many experts share. Each has a pass, and each call of an expert is one turn of its pass.
#![tactic(auto)]

mod desk;
mod gate;
mod searching;
mod seated;
mod shared;
mod solo;

pub use desk::{Desk, Wide};
pub use gate::{ExpertPass, Gate};
pub use seated::Seated;
pub use shared::{OpeningModel, Seen, SharedExplore};
pub use solo::Solo;
