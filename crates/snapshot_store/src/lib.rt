//! Snapshots of a master: the one that is stored, from which a new master starts after a crash, and the one that is
//! under way to the store.
#![tactic(auto)]

mod store;

pub use master_core::{Counts, Master, Program};
pub use store::{Restored, Store};
