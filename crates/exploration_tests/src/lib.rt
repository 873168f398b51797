//! Tests of the crates by which experts explore, by what they offer to all: an expert alone, a panel, and sessions over sockets. A test is
//! proved with the whole crate that it stands in, so those of many crates stand in this one, which has nothing else.
#![tactic(auto)]

#[cfg(test)]
mod expert_gate_tests;
#[cfg(test)]
mod expert_panel_tests;
#[cfg(test)]
mod explore_state_tests;
#[cfg(test)]
mod real_ends_tests;
#[cfg(test)]
mod serve_tests;
#[cfg(test)]
mod tables;
#[cfg(test)]
mod turn_lock_tests;
#[cfg(test)]
mod two_oracles_tests;
