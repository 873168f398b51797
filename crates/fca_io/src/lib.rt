//! Streams, files and listeners as the rest of the workbench sees them, and their forms in memory.
#![tactic(auto)]

mod listener;
mod memory;
mod outside;
mod transfer;

pub use fca_model::Steps;
pub use listener::{Duplex, Listener};
pub use memory::{MemoryEnd, MemoryLink, MemoryShelf, MemorySink, MemorySource, SureSource};
pub use outside::{Failed, Put, READ_FAULT, Shelf, Sink, Source, TOO_LONG, Taken, WRITE_FAULT};
pub use transfer::{read_all, write_text};
