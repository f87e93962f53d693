//! A box that sees each packet behind its VLAN tag (IEEE 802.1Q), what it means, and the laws of its runs.
#![tactic(auto)]

mod laws;
mod tagged;

pub use laws::{
    bytes_stand_behind_tags, emissions_keep_their_tags, first_bytes_stay,
    nothing_is_looked_through, runs_look_through_tags, tagged_boxes_are_lawful,
};
pub use tagged::Tagged;
