//! Whole stored states of a recovering system: whether it may be handed over, the image of what it has, and the system
//! that goes on from an image.
#![tactic(auto)]

mod building;
mod imaging;
mod judging;
mod lists;
mod ready;
mod resuming;
mod rows;

pub use crash_recovery::wake;
pub use imaging::image_of;
pub use packet_feeds::append;
pub use ready::readiness;
pub use resuming::resume_parts;
pub use system_end::{Memory, discard, end_awake};
pub use system_opening::open_parts;
