//! The texts by which an operator knows a flow: its protocol, and its IPv4 addresses and ports.
#![tactic(auto)]

mod endpoint;
mod protocol;

pub use endpoint::{address_text, endpoint_text};
pub use protocol::protocol_text;
