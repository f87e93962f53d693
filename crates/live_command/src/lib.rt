//! The run of a plan: a recovering system whose threads race in rounds. What they did is written as a script, event by
//! event, and each event leaves what it leaves in the run of that script.
#![tactic(auto)]

mod arriving;
mod laws;
mod lines;
mod performing;
mod racing;
mod running;
mod settling;
mod standing;
mod stepping;
mod writing;

pub use laws::live_scripts_are_scripts;
pub use running::run_plan;
