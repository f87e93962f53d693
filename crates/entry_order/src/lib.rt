//! The order of log entries: what precedes what among the accesses that a run logged. It knows no program.
#![tactic(auto)]

mod laws;
mod log_entry;
mod what;

pub use laws::{
    closed_part_is_within_frontiers, closed_sets_go_back, closed_sets_go_on, entries_are_in_order,
    entries_are_numbered, missing_is_past_frontiers, numbers_tell_order, outputs_have_stamps,
    stamps_are_joins, weights_are_sums,
};
pub use log_entry::LogEntry;
pub use what::What;
