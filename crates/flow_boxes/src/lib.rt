//! What the boxes on flows share: why a packet is dropped, and how many were, by reason; and short lists of settings.
#![tactic(auto)]

mod drops;
mod short_list;

pub use drops::{Drops, STRAY, reason_of};
pub use short_list::{MOST, ShortList};
