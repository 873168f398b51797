//! Sessions: one expert over the bytes of one end, and many at once.
#![tactic(auto)]

mod ahead;
mod answer;
mod ended;
mod said;
mod seats;
mod serving;
mod talk;

pub use ended::Ended;
pub use seats::SessionSeat;
pub use serving::{Served, Unserved, serve_ends};
pub use talk::session;
