//! The packets of a capture are fed to a recovering system, more are put behind them, and its clock is set.
#![tactic(auto)]

mod appending;
mod feeding;

pub use appending::append;
pub use feeding::{feed, set_time};
