//! The parts of a recovering system, put together, and the worlds that they stand for.
#![tactic(auto)]

mod assembly;

pub use assembly::Core;
pub use event_replies::{Releases, Reply, only};
pub use replay_guide::Guide;
