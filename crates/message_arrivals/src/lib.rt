//! Log entries and outputs arrive at the output logger of a recovering system: in time, late, or cut.
#![tactic(auto)]

mod arriving;

pub use arriving::{arrive, arrive_cut, arrive_late};
