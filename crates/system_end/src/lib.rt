//! How a recovering system ends: the schedule of the run that it amounts to.
#![tactic(auto)]

mod ending;

pub use ending::{Memory, discard, end_awake};
