//! The texts of the concepts, of the lattice and of the basis of a table, made in sets as narrow as the table.
#![tactic(auto)]

mod attribute_names;
mod basis_lines;
mod cover_lines;
mod filling;
mod heads;
mod jobs;
mod lattice;
mod narrow_basis;
mod numerals;
mod packed;
mod teams;
mod tops;

pub use lattice::narrow_lattice_text;
pub use narrow_basis::narrow_basis_text;
pub use packed::narrow_concepts_text;
