//! The tables of the box `nat`: the pool of free ports, the mappings of inside endpoints, and the bound outside ports.
#![tactic(auto)]

mod entries;
mod first_seen;
mod forward;
mod free_ports;
mod host_counts;
mod laws;
mod mappings;
mod parity_ports;
mod phase;
mod pool;
mod port_group;
mod port_word;
mod reverse;
mod showing;
mod slot;
mod times;

pub use entries::{Bind, BoundPort, Endpoint, Find, Freed, Mapping, PortKey};
pub use forward::Forward;
pub use laws::reserve_keeps_parity;
pub use mappings::Mappings;
pub use phase::{Phase, Segment};
pub use pool::Pool;
pub use reverse::Reverse;
pub use slot::Slot;
