//! The shared variables of a round in which threads race, each under a numbered lock: its word is twice the number of
//! its touches, and one more while a thread has it. However the threads run, what they did is one legal run.
#![tactic(auto)]

mod calls;
mod keeping;
mod lines;
mod opening;
mod progress;
mod seats;
mod spaced;
mod steps;
mod touches;
mod touching;
mod vars;
mod view;

pub use progress::is_on_variable;
pub use seats::VarSeat;
pub use spaced::Slot;
pub use touching::{Gate, OpenGate, Touched};
pub use vars::{Closed, Vars};
pub use view::{
    Brought, Ended, Given, Held, Law, Missed, MissedEntry, Named, News, Note, Noted, Parted, Round,
    Share, Taken, View,
};
