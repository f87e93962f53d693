//! The parts of a recovering system before the first event.
#![tactic(auto)]

mod opening;

pub use opening::open_parts;
