//! Vector stamps: for each thread a count, as vector clocks have them (Fidge 1988, Mattern 1989).
#![tactic(auto)]

mod counts;
mod stamp;

pub use counts::EntryCounts;
pub use stamp::{Stamp, THREADS};
