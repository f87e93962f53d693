//! The run in which a world ends: a master plays on past its last move, and the schedule of all its moves is what a
//! script leaves.
//!
//! It makes the entries that it must follow and has not made yet, by weight, then thread, and then sends out again what
//! was released. Nothing is logged, released or counted against a limit here.
#![tactic(auto)]

mod ending;
mod next;
mod run;

pub use ending::finish_run;
pub use next::input_of;
