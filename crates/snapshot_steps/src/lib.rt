//! Snapshots of the master of a recovering system: one is made, and one is stored.
#![tactic(auto)]

mod snapshots;

pub use snapshots::{snap, store};
