//! One master: it runs a box program one move at a time, and logs every access with its place and its stamp. Copies of
//! it, and what changed between two moments. And the laws of what is held of its log: what is missing, and the closed
//! part, are those that the order of entries defines.
#![tactic(auto)]

mod bounds;
mod counting;
mod effects;
mod laws;
mod lists;
mod master;
pub mod moves;
mod parts;
mod step;
mod untouched;
mod wants;

pub use access_log::Turn;
pub use bounds::standing_masters_are_bounded;
pub use box_program::Program;
pub use counting::entries_are_counted;
pub use laws::{
    closed_part_is_defined, covering_a_later_moment, fresh_lanes_hold_nothing,
    held_entries_are_looked_up, holding_one_more, known_is_held_or_stored, missing_is_defined,
};
pub use lists::lists_are_followed;
pub use master::{Delta, Master, MasterParts};
pub use parts::{Counts, ThreadPart, VarPart};
pub use step::{Stepped, Trace, Woven, WovenStep};
pub use untouched::untouched_variables_stay;
pub use wants::Wants;
