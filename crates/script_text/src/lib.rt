//! Scripts: texts of events, one on each line. A text is read into its events, an event is written as its line, with
//! what it came to, and two random words choose an event.
#![tactic(auto)]

mod choosing;
mod form;
mod laws;
mod outcome;
mod script;
mod written;

pub use choosing::auto_event;
pub use laws::{a_text_is_one_script_or_has_a_fault, written_scripts_are_read};
pub use outcome::{write_outcome, write_released};
pub use plain_text::Kind;
pub use recovery_world::{Event, Outcome, Schedule};
pub use script::{Events, Scripts, put_script, read_script};
pub use written::{put_event, write_event};
