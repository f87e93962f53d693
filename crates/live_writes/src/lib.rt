//! What the command `live` writes: the outputs of `run`, and beside them the script of what happened, in which the line
//! of each event stands before anything that the event leaves is written.
#![tactic(auto)]

mod opening;
mod script;

pub use opening::{LiveFiles, LiveNumbers, PlanRun, open_live};
pub use script::Script;
