//! Errors of ICMP: the view of an Ethernet frame as an error (RFC 792) that quotes a packet of TCP or UDP over IPv4,
//! and the rewriting of both packets' addresses and of the quoted port (RFC 5508, section 4).
//!
//! No call takes memory.
#![tactic(auto)]

mod error;
mod exchanging;
mod rewriting;
mod viewing;

pub use error::IcmpError;
pub use exchanging::{exchange_long, exchange_word};
pub use rewriting::{set_quoted_dest, set_quoted_source};
pub use viewing::view_error;
