//! The outside of the program: the files of the system, standard output as the report, the system's clock, and a line
//! of progress.
//!
//! This is the trusted edge. What a call answers, which numbers it gives and how it counts faults
//! is proved. That the bytes a call moved are those of the named file is not, and no proof can
//! reach it: it is trusted that std's files and the system's do what they say, that `open` reads a
//! name from its first byte, that `create` makes a name's bytes empty or adds the name, that `read`
//! takes what follows, and that `write` appends what it says it took. A piece of the report whose pipe is closed counts
//! as taken, though nothing of it was written.
#![tactic(auto)]

mod notice;
mod pieces;
mod real_clock;
mod real_file;
mod real_world;

pub use notice::{Notice, ProgressLine, Silence};
pub use real_clock::RealClock;
pub use real_world::RealWorld;
