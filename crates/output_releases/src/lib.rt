//! What a recovering system does as outputs are released: it notes and lists them, and forgets their frames.
#![tactic(auto)]

mod releasing;

pub use releasing::{forget_released, forget_some, note_released};
pub use system_parts::{Core, Reply, only};
