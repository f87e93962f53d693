//! Plans as texts, one line for each thing that an operator asks of racing threads. A text is read into its lines, and
//! lines are written as a text.
#![tactic(auto)]

mod form;
mod laws;
mod plan;
mod written;

pub use laws::{a_text_is_one_plan_or_has_a_fault, written_plans_are_read};
pub use plan::{Plans, put_plan, read_plan};
pub use plan_script::{Plan, PlanLine};
pub use written::put_plan_line;
