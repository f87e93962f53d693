//! The laws of all runs of the load balancer: where its packets are, how long its connections stay and how they end,
//! which packets it translates, why it drops the others, and which backends new connections have. Each is proved, and
//! does nothing: a caller has it by the call.
#![tactic(auto)]

mod laws;

pub use laws::{
    answers_come_before_idle, clients_refresh_their_own_connections,
    connections_are_followed_by_the_line, connections_end_as_both_sides_say,
    connections_stay_until_idle_or_reset, drops_have_their_causes, idle_connections_give_way,
    new_connections_have_least_load, no_packet_vanishes, traced_reasons_are_those_counted,
    what_is_translated_is_of_the_service,
};
