//! The concepts of a table, gathered along the tree of intents. The extent goes down the tree, as places in the table.
#![tactic(auto)]

mod branch;
mod cross_table;
mod few_branch;
mod gathering;
mod names;
mod node;
mod notes;
mod steps;
mod work_lists;

pub use branch::{LargerIntent, gather_branch, next_child};
pub use cross_table::CrossTable;
pub use gathering::Gathering;
pub use names::{attribute_pieces, table_names};
pub use node::{Candidates, Node};
pub use notes::known_witnesses;
pub use work_lists::{WorkListPool, WorkLists};
