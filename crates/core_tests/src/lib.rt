//! Tests of the crates of sets, tables, concepts and bases: of the public calls that can say that there is no memory and that no whole call
//! of the program makes. A test is proved with the whole crate that it stands in, so those of many crates stand in this one, which has
//! nothing else.
#![tactic(auto)]

#[cfg(test)]
mod basis_report_tests;
#[cfg(test)]
mod canonical_basis_tests;
#[cfg(test)]
mod context_reduce_tests;
#[cfg(test)]
mod derivation_tests;
#[cfg(test)]
mod fca_io_tests;
#[cfg(test)]
mod fca_model_tests;
#[cfg(test)]
mod lattice_covers_tests;
#[cfg(test)]
mod lectic_concepts_tests;
#[cfg(test)]
mod level_queue_tests;
#[cfg(test)]
mod next_level_tests;
#[cfg(test)]
mod pseudo_levels_tests;
#[cfg(test)]
mod table_texts_tests;
#[cfg(test)]
mod tables;
