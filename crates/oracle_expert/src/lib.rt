//! Experts, who answer questions, and oracles: experts who answer from a table.
#![tactic(auto)]

mod expert;
mod indexed;
pub mod laws;
mod oracle;

pub use expert::{Answer, Expert};
pub use oracle::Oracle;
