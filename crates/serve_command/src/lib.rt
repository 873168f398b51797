//! The command `serve`: experts explore a table over the ends that a listener accepts.
#![tactic(auto)]

mod accepting;
mod ended_words;
mod opening;
mod serving;

pub use serving::{Invitation, serve};
