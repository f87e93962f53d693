//! The output logger: an output is released only when every log entry that it depends on is held or stored. This is the
//! output commit of Strom and Yemini, Optimistic Recovery in Distributed Systems (1985).
#![tactic(auto)]

mod laws;
mod logger;
mod reach;
mod took;
mod waiting;

pub use laws::each_output_is_released_once;
pub use logger::OutputLogger;
pub use took::{EntryTook, OutputTook};
