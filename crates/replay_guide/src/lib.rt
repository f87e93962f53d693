//! What a new master follows after a crash: the log entries that were held, each as it is recorded. The guide tells
//! whose turn it is at a variable, what a clock or a draw was told, how many entries are left, and in which order they
//! can all be made.
#![tactic(auto)]

mod guide;
mod index;
mod lane;
mod laws;

pub use guide::{Guide, Order};
pub use laws::{
    answers_are_those_of_the_world, closed_parts_can_be_followed, guides_follow_the_world,
    orders_are_by_weight, turns_are_those_of_the_world,
};
