//! The pieces of texts, which all text forms share: lines, words, blanks, numerals and marks.
#![tactic(auto)]

mod blanks;
pub mod bytes;
pub mod faults;
mod lines;
mod marks;
mod numerals;
mod words;

pub use blanks::{is_blank_line, trim};
pub use lines::Lines;
pub use marks::{are_marks, is_mark, marks_of, set_of_marks};
pub use numerals::{is_numeral, value_of};
pub use words::split_word;
