//! The edge of the program: what it does with its words, and the number that it ends with.
//!
//! A program's `main` calls `run_program`, which alone speaks to the system. All that it decides
//! stands in functions with clauses. The words and the texts stand in `command_words`.
#![tactic(auto)]

mod answering;
mod choosing;
mod ending;
mod program;
mod racing;
mod running;
mod unreadable;

pub use answering::perform;
pub use choosing::run_words;
pub use command_words::{
    Piped, ReportOn, Status, StatusText, WatchedTo, asks_text, asks_watch, name_streams, one_file,
    read_text, read_words, tell_more, watch_words,
};
pub use ending::exit_of;
pub use program::{Ended, EndedOnFiles, run_arguments, run_program};
pub use running::{Ran, RealTap, SilentWorld};
