//! Lanes: a lane hands frames, or other items, from one thread to another, in order and with no lock. What was taken
//! from it, followed by what is left in the end, is what was put.
#![tactic(auto)]

mod lane;
mod view;

pub use lane::{Lane, LaneReceiver, LaneSender};
