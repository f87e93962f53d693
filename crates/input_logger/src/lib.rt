//! The input log: packets as they are fed, each steered to a thread, so that the packets of one flow go to one thread.
#![tactic(auto)]

mod laws;
mod log;
mod steering;

pub use laws::{both_directions_have_one_thread, inputs_stand_behind_tags};
pub use log::InputLog;
pub use steering::steer;
