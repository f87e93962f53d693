//! Frames and captures that the tests of several crates read. No program uses them.
#![tactic(auto)]

mod captures;
mod frames;

pub use captures::{LITTLE_MICRO, ONE_COUNTED, ONE_PACKET, TWO_PACKETS, WRITTEN_MICRO};
pub use frames::{ANSWER, HAIRPIN, NEXT_QUERY, OTHER_QUERY, QUERY, QUERY_WITH_OPTIONS, SYN};
