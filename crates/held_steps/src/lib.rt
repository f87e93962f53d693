//! A thread of the master makes its next move, and the entry that it logs arrives at once.
#![tactic(auto)]

mod holding;
mod stepping;

pub use stepping::step_held;
pub use thread_steps::input_of;
