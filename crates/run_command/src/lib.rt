//! The run of a script: a recovering system performs its events one by one, and what falls due is written after each of
//! them, first the records of the packets that it released, then its line of the report.
#![tactic(auto)]

mod ending;
mod performing;
mod replying;
mod run;
mod running;

pub use ending::close_run;
pub use performing::{Performed, perform};
pub use recovery_core::System;
pub use replying::write_performed;
pub use run::{run_from, run_script, write_events};
pub use running::{perform_event, perform_events};
