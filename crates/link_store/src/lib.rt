//! What was sent on the links between the nodes: each frame by its epoch, its kind, its thread and
//! its number; and what a master sends on its links, with how long each frame was.
#![tactic(auto)]

mod address;
mod kept;
mod links;
mod narrow;
mod reading;
mod row;
mod run;
mod sending;

pub use address::Address;
pub use kept::KeptFrame;
pub use links::Links;
pub use row::SeenFrame;
pub use sending::SentFrames;
