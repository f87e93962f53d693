//! The command `chain`: two recovering systems in a chain perform the events of a script, one by one, and what falls
//! due is written after each of them: the records of the packets that the first released, those of the second's, and
//! the line of the report.
#![tactic(auto)]

mod chaining;
mod ending;
mod opening;
mod performing;
mod replying;
mod running;

pub use chaining::run_chain;
pub use opening::{ChainFiles, ChainNumbers, ChainRun, SystemShape};
pub use replying::put_chain_line;
