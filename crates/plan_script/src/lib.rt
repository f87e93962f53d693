//! Plans: what an operator asks of racing threads, line by line, and which scripts say what they did. Laws say that a
//! script of a plan is performed, event by event, and that one that settles releases all.
#![tactic(auto)]

mod laws;
mod plan;

pub use laws::{plans_that_settle_release_all, scripts_of_plans_are_performed};
pub use plan::{Plan, PlanLine};
