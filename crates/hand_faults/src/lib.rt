//! At which line a text of a handover has its first fault, where no system goes on from its image, and why.
#![tactic(auto)]

mod fault;
mod laws;
mod place;

pub use fault::{HandCause, HandFault};
pub use laws::a_text_has_one_hand_fault;
pub use place::hand_fault;
