//! The laws of the boxes in every world that a script leads to, whatever crashed on the way.
#![tactic(auto)]

mod laws;

pub use laws::{
    balancer_loads_hold_over_crashes, drops_have_causes_over_crashes, each_packet_has_one_outcome,
    histories_hold_over_crashes, nat_tables_hold_over_crashes, released_packets_are_translations,
    settled_packets_left_or_were_counted,
};
