//! Two recovering systems in a chain: what the first releases is put behind the capture of the second, in order of
//! release. However their events are mixed, each system is just where its own events lead it: the first on the capture,
//! and the second on what the first has released.
#![tactic(auto)]

mod chain;
mod passing;

pub use chain::{Chain, ChainFinished, Passed};
pub use recovery_core::{Finished, Memory, Reply, Stop, System, put_line};
