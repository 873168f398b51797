//! The terms of an exploration: its settings, the names of its experts, and events with their replies.
#![tactic(auto)]

mod names;
mod settings;

pub use crate::names::ExpertNames;
pub use crate::settings::Settings;
use attr_bits::Attrs;
use fca_model::Name;

/// What an expert does.
pub type Event = fca_model::Event<Name, Attrs>;

/// The answer to an event.
pub type Reply = fca_model::Reply<Attrs>;

/// An event with its reply.
pub type Entry = fca_model::Entry<Name, Attrs>;

/// A question that an expert holds.
pub type Hold = fca_model::Hold<Attrs>;
