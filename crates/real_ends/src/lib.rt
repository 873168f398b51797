//! The real ends: words, files, standard streams and sockets of the system. They count their faults. Contracts know nothing of what
//! they hold.
#![tactic(auto)]

mod address;
mod connection;
mod link;
mod streams;
mod words;

pub use address::is_address;
pub use link::{TcpEnd, TcpLink};
pub use streams::{CountedInput, CountedOutput, FileShelf, StdFault, StdInput, StdOutput};
pub use words::words_of;
