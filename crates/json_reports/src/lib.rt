//! Concepts and bases as one line of JSON. This crate is split from `basis_report` for proof time alone.
#![tactic(auto)]

mod json_lines;
pub mod laws;

pub use json_lines::{basis_json, concepts_json};
