//! The texts of explorations, verdicts and surveys. The lists of concepts and implications come from `report_texts`.
#![tactic(auto)]

mod conflicts;
mod explorations;
pub mod laws;
mod names;
mod pieces;
mod sessions;
mod surveys;
mod verdicts;

pub use conflicts::conflicts_text;
pub use explorations::explore_text;
pub use pieces::explore_pieces;
pub use report_texts::{basis_text, concepts_text, direct_text, lattice_text};
pub use sessions::sessions_text;
pub use surveys::survey_text;
pub use verdicts::{follows_text, verdict_text};
