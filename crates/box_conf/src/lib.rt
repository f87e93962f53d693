//! Box files: which box runs, on how many threads, and with which seed.
#![tactic(auto)]

mod conf;
mod kind;
mod laws;
mod names;
mod settings;
mod table;

pub use conf::read_box;
pub use kind::{BoxConf, BoxKind};
pub use laws::{a_text_is_one_box_file_or_has_a_fault, lines_are_settings};
