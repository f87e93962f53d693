//! A recovering system performs the events of several: a settling, a flow of packets, and events that are chosen by
//! words. Each is a strategy, that tells from how far it is and from the system which event comes next; one loop
//! follows them all.
#![tactic(auto)]

mod choosing;
mod messages;
mod progress;
mod repeats;
mod strategy;
mod turns;

pub use progress::Progress;
pub use single_events::perform_single;
pub use strategy::{begin, perform_several};
