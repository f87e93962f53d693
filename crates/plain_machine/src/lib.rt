//! The plain machine: what a box program means, and what it does to packets with no log, snapshot or crash.
//!
//! It has the types that the definitions name, and the definitions in `specs/`; the recovering system is proved to
//! do what this machine may do.
#![tactic(auto)]

mod emission;
mod laws;
mod line_laws;
mod local;
mod plain_move;
mod schedule;

pub use emission::Emission;
pub use laws::{
    entries_are_logged, lists_are_histories, lists_go_on, runs_agree, runs_continue, runs_recover,
};
pub use line_laws::{
    arranged_entries_go_on, entries_lead_on, logs_agree_on_closed_sets, outputs_come_again,
    runs_are_kept,
};
pub use local::{Local, Move};
pub use plain_move::{PlainMove, PlayCause, PlayFault};
pub use plain_text::{Bytes, NoMemory, Text};
pub use schedule::Schedule;
