//! The commands that note what a run does as it goes: `drill`, which compares a run in which the
//! master crashes again and again with the same run without crashes; `trace`, which tells what became
//! of each packet; and `picture`, which draws the run.
#![tactic(auto)]

mod drill;
mod picture;
mod trace;

pub use drill::{DrillRun, run_drill};
pub use picture::{all_moves_are_noted, run_picture};
pub use recovery_core::System;
pub use trace::{
    Became, Departure, Fate, Row, each_packet_has_one_row, each_release_has_its_event, run_trace,
};
