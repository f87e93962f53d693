//! A recovering system whose master races in a round: the master is taken out, the rest notes what its threads did,
//! move by move, as if each had done it by an event `step`, and takes a master back.
#![tactic(auto)]

mod rest;

pub use rest::{Parted, Rest, part};
