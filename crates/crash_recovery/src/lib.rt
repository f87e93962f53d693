//! The master of a recovering system crashes, and a new one starts from the stored snapshot.
#![tactic(auto)]

mod crashing;

pub use crashing::{crash, recover, wake};
