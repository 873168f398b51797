//! The words of the command line: which command they are, and which attributes a word names.
#![tactic(auto)]

mod attributes;
mod command;
mod experts;
mod flags;
mod numbers;
mod recipe;
mod words;

pub use attributes::attribute_set;
pub use command::{Command, Form, command_of};
pub use words::Words;
