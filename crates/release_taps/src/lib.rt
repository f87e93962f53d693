//! Taps: objects that are shown the bytes which a mirrored file took.
//!
//! A world round another world shows them, each in turn, and passes on what the world below
//! answers. A tap that fails is shown nothing more, and the run goes on. Words that ask for taps are pairs in front of
//! those of a run.
#![tactic(auto)]

mod boxed_tap;
mod memory_tap;
mod seat;
mod split;
mod tap;
mod tap_world;

pub use memory_tap::MemoryTap;
pub use seat::Seat;
pub use split::{MOST_TAPS, Split, count_pairs, mirrored_name, run_line, split_taps};
pub use tap::{Shown, Tap};
pub use tap_world::{Seating, TapWorld, Untapped};
