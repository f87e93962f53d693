//! Flows: the view of an Ethernet frame as UDP (RFC 768) or TCP (RFC 9293) over IPv4 (RFC 791), and the rewriting of
//! its addresses and ports (RFC 3022).
//!
//! No call takes memory.
#![tactic(auto)]

mod fields;
mod flow;
mod rewriting;
mod viewing;

pub use fields::{
    DESTINATION_ADDRESS, HEADER_CHECKSUM, IP_HEADER, PROTOCOL, SOURCE_ADDRESS, TOTAL_LENGTH,
    long_at, put_long, put_word, word_at,
};
pub use flow::{Flow, NotFlow, TCP, UDP, steering_sum};
pub use rewriting::{set_dest, set_source, written_checksum};
pub use viewing::view;
