//! Captures: libpcap savefiles of version 2.4 with Ethernet frames, by pcap-savefile(5), read in
//! pieces and written.
#![tactic(auto)]

mod capture;
mod fault;
mod header;
pub mod laws;
mod next;
mod order;
mod reader;
mod record;
mod started;

pub use capture::{Captured, read_capture};
pub use fault::{CaptureCause, CaptureFault};
pub use header::put_header;
pub use next::Next;
pub use order::Order;
pub use reader::Reader;
pub use record::{put_packet, record_len};
pub use started::Started;
