//! Sources, sinks, shelves, ends and listeners in memory, with lists of the calls that fail.

mod end;
mod link;
mod plan;
mod shelf;
mod sink;
mod source;

pub use end::MemoryEnd;
pub use link::MemoryLink;
pub use shelf::MemoryShelf;
pub use sink::MemorySink;
pub use source::{MemorySource, SureSource};
