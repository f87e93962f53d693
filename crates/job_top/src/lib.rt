//! The top call: the commands of FTMB over any world; and a run with taps, which is the top call over a world that
//! shows them the bytes which the released capture took.
#![tactic(auto)]

mod chain;
mod drill;
mod hand;
mod live;
mod mirroring;
mod picture;
mod racing;
mod resume;
mod top;
mod trace;

pub use job_commands::{InputFault, Status};
pub use mirroring::{TappedRun, tapped};
pub use racing::race_tapped;
pub use top::{ftmb, serial};
