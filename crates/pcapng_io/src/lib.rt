//! pcapng captures, by draft-ietf-opsawg-pcapng, "PCAP Now Generic (pcapng) Capture File Format", read in pieces; and
//! captures of either format.
#![tactic(auto)]

mod any;
mod block;
mod capture;
mod content;
mod fault;
mod frame;
mod interface;
pub mod laws;
mod next;
mod number;
mod packet;
mod piece;
mod place;
mod reader;
mod time;

pub use any::{AnyReader, AnyStarted, Format, open_capture};
pub use block::{Block, BlockKind, MOST_BLOCK};
pub use capture::{AnyCaptured, read_any_capture};
pub use fault::{AnyFault, NgCause, NgFault};
pub use interface::Interface;
pub use next::AnyNext;
pub use reader::NgReader;
