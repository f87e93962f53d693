//! Box programs: the trait that every box implements, the box that counts, and a box for tests that also reads.
#![tactic(auto)]

mod count;
mod lent;
mod numbered;
mod peek;
mod program;

pub use count::CountBox;
pub use lent::Lent;
pub use peek::PeekBox;
pub use plain_machine::{Local, Move, PlainMove, Schedule};
pub use program::Program;
