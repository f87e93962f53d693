//! A thread of the master of a recovering system makes its next move.
#![tactic(auto)]

mod stepping;

pub use run_end::input_of;
pub use stepping::{entry_outcome, make_move, note, note_kept, note_move, step};
pub use system_parts::{Core, Guide};
