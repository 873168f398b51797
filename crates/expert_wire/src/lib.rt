//! The lines between an expert and an exploration: requests, rows, greetings and replies. The parts that every text is written of
//! stand here too.
#![tactic(auto)]

mod draft;
mod greeting;
mod lines;
mod parts;
mod replies;
mod requests;
mod words;

pub use draft::{Draft, Growing};
pub use greeting::write_greeting;
pub use lines::is_skipped;
pub use parts::{Part, write_bytes};
pub use replies::write_reply;
pub use requests::{Request, RequestFault, read_request};
pub use words::{expert_number, pattern_marks, read_row, utf8_text};
