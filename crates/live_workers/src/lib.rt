//! Rounds of racing threads: workers make the moves of a box's threads beside each other, on as many threads as the
//! machine gives. What they did is a part of a script, and the recovering system stands where that part leads.
#![tactic(auto)]

mod crew;
mod draws;
mod gathering;
mod moving;
mod racing;
mod rounds;
mod sent;
mod working;

pub use draws::Draws;
pub use round_join::Noted;
pub use rounds::{RoundDone, RoundStop, round};
