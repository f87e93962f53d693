//! A recovering system performs an event that is not one of several.
#![tactic(auto)]

mod performing;
mod showing;

pub use performing::perform_single;
