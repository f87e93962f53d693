//! The box `monitor`, which counts packets and bytes by flow in tables that all threads share.
#![tactic(auto)]

mod copied;
mod counts;
mod laws;
mod monitor;
mod program;
mod showing;
mod table;
mod value;

pub use counts::{FlowCount, FlowKey, Totals};
pub use laws::{
    flows_count_their_packets, flows_stand_by_their_sums, others_are_counted, totals_match_flows,
};
pub use monitor::MonitorBox;
pub use table::FlowTable;
pub use value::MonitorValue;
