//! The words of the command line, and what is told of them: what they ask for, which two name one file, the texts of
//! `--help` and `--version`, the packets that are watched, and what stands on standard error where something is not
//! done.
//!
//! It stands alongside the top call and waits for none of it.
#![tactic(auto)]

mod clashes;
mod faults;
mod named_file;
mod pipes;
mod printing;
mod request;
mod system_files;
mod telling;
mod topic;
mod usage;
mod watching;
mod word_places;
mod words;

pub use clashes::{Clash, OtherName, one_file};
pub use job_commands::{Status, StatusText};
pub use named_file::{NamedFile, Names, Node};
pub use pipes::{Piped, ReportOn, name_streams};
pub use printing::{asks_text, read_text};
pub use request::{Request, read_request};
pub use telling::{tell_drops, tell_more};
pub use topic::Topic;
pub use usage::{help, help_of, version};
pub use watching::{WatchedTo, asks_watch, watch_words};
pub use words::read_words;
