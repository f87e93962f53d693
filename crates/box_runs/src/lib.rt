//! The laws of all runs of the counting box and of the monitor: what they send out. Each is proved, and does nothing:
//! a caller has it by the call.
#![tactic(auto)]

mod laws;

pub use laws::{packets_carry_their_count, packets_leave_unchanged_once};
