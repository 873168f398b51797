//! The top call: it finds the command that the words are, runs it over the outside, and gives the status.
#![tactic(auto)]

mod call;
mod made;
mod reports;
mod scaling;

pub use call::{run, run_plain};
