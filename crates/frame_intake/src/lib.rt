//! The frames of racing threads, by their names, and the orders that say which of them arrive.
#![tactic(auto)]

mod frames;
mod lost;
mod orders;

pub use frames::FrameName;
pub use orders::RoundOrders;
