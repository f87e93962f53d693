//! Laws on every run of the box `nat`.
#![tactic(auto)]

mod laws;

pub use laws::{
    classes_are_by_the_networks, connections_are_followed_by_the_line, drops_have_their_causes,
    errors_go_through_by_the_line, errors_keep_what_they_quote, hosts_keep_within_their_limit,
    hosts_refresh_their_own_mappings, idle_mappings_give_way, inbound_packets_change_no_table,
    mappings_stay_until_idle, new_mappings_keep_parity, no_packet_vanishes, static_ports_stay,
    traced_reasons_are_those_counted, what_comes_in_found_a_live_mapping,
};
