//! What each move of a run did, with its numbers: found by playing the moves by the plain machine.
#![tactic(auto)]

mod made;
mod next;
mod playing;

pub use made::{Did, Made, MadeMoves};
pub use playing::made_moves;
