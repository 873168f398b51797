//! Known files, scripts and transcripts. A known file lists the implications that are known before an exploration begins. A script
//! gives the settings and the events of an exploration. A transcript is the script of an exploration, with the replies.
#![tactic(auto)]

mod events;
mod fault;
mod known;
mod known_fault;
pub mod laws;
mod partial;
mod reading;
mod scripts;
mod transcript;

pub use fault::ScriptFault;
pub use known::read_known;
pub use known_fault::KnownFault;
pub use scripts::{Events, Script, read_script};
pub use transcript::{transcript_text, write_transcript};
