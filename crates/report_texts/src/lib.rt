//! Lists of concepts, of their covers and of implications as texts.
#![tactic(auto)]

mod concepts;
mod count_line;
mod implications;

pub use concepts::{concepts_text, lattice_text, object_text};
pub use count_line::write_count_line;
pub use implications::{basis_text, direct_text, write_implication, write_implications};
