//! Log entries with their stamps, outputs, and the set of entries that a node holds.
#![tactic(auto)]

mod entry;
mod held;
mod lane;
mod laws;
mod narrow;
mod narrow_stamp;
mod row;
mod slots;

pub use entry::{Added, Output, Outputs, StampedEntry, Turn, copy_output};
pub use entry_order::What;
pub use held::{Held, Kept};
pub use laws::held_sets_are_counted;
pub use narrow_stamp::NarrowStamp;
