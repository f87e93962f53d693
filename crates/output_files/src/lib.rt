//! Outputs: files that are created and written in a certain order, and the report. What a command is to write is a list
//! of writes, and whenever a call ends, some first part of the list was done, and nothing else.
#![tactic(auto)]

mod error;
mod lines;
mod pieces;
mod writing;

pub use error::OutputError;
pub use lines::write_lines;
pub use pieces::{PIECE, PIECE_ROOM, append_full, append_last};
pub use writing::{REPORT, append, create, report};
