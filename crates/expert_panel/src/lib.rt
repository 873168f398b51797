//! Panels: experts in seats draw and answer at one gate. The seats run side by side on threads.
#![tactic(auto)]

mod attend;
mod end;
mod explored;
pub mod laws;
mod panel;
mod seat;

pub use end::SeatEnd;
pub use explored::{ExplorationByOracles, explore_with_oracles};
pub use panel::run_panel;
pub use seat::{Seat, seat_experts};
