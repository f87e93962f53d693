//! What a drill performs and tells: its events, and those of the run without crashes beside it; the first packet in
//! which the two differ; and the report, with a line for each reason of drops.
#![tactic(auto)]

mod comparing;
mod copying;
mod drops;
mod events;
mod laws;
mod reporting;

pub use comparing::first_difference;
pub use copying::copy_packets;
pub use drops::put_reason;
pub use events::{Events, calm_events, drill_events};
pub use laws::{rounds_are_the_fewest_that_feed_all, what_was_all_released_waits_for_nothing};
pub use reporting::{Facts, put_report};
