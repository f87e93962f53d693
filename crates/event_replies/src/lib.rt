//! What performing an event answers: its outcome with the outputs that it released, why it did not end, and how a run
//! ended.
#![tactic(auto)]

mod lines;
mod reply;

pub use lines::put_line;
pub use reply::{Finished, Releases, Reply, Stop, only};
