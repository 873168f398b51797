//! The command `replay`: the exploration of a table by a script.
#![tactic(auto)]

pub mod laws;
mod replaying;
mod settings;

pub use replaying::replay;
