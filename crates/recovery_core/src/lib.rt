//! The recovering system: the input log, a master, its snapshots, what it follows after a crash, the links, and the
//! output logger, put together. It performs the events of a script one by one.
//!
//! A system stands for a world of the definitions (`SystemStands`). Each event that it performs is that of the
//! definitions, for every world that it stands for: the reply is the same, and afterwards it stands for the world of
//! the event. It keeps counts and lengths where the definitions keep whole lists, so no event takes longer the longer
//! the run has been.
#![tactic(auto)]

mod handing;
mod lacking;
mod parting;
mod system;

pub use event_replies::{Finished, Releases, Reply, Stop, put_line};
pub use lacking::Lacks;
pub use parting::{Kept, SystemParted};
pub use system::System;
pub use system_images::Memory;
pub use system_rest::Rest;
