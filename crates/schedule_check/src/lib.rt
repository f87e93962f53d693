//! What is told of a schedule and of released packets: whether the schedule is legal on a capture, what it sends out,
//! and whether each released packet has an emission of its own.
#![tactic(auto)]

mod checking;
mod content;
mod counts;
mod emitting;
mod feeding;
mod laws;
mod matching;

pub use checking::{Checked, Refutation, check};
pub use emitting::emit;
pub use feeding::feed_all;
pub use laws::packets_are_matched_or_one_is_the_first_unmatched;
pub use matching::first_unmatched;
