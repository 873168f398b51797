//! What all commands share: they read tables, tables of values and plans from files and scripts from the input, and write a text to out or a line to err.
#![tactic(auto)]

mod err_line;
mod fetch;
mod known;
mod narrow;
mod output;
mod readings;
mod scalings;
mod stop;
mod text;

pub use known::{Start, check_known, load_start};
pub use narrow::load_narrow_table;
pub use output::{Ending, Output, conclude};
pub use readings::{load_script, load_table};
pub use scalings::{load_plan, load_values};
pub use stop::{Origin, Stop, file_at_fault};
pub use text::Text;
