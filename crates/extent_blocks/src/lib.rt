//! Extents as places in blocks of 256, and closures by them.
//!
//! Each attribute has a column, the rows that have it, so the rows that contain a set with one attribute more are found many at a time. A closure looks at few
//! rows: as long as a row lacks an attribute that is still to be judged, at one such row.
#![tactic(auto)]

mod extent;
mod rows;

pub use extent::BlockExtent;
pub use rows::IndexedRows;
