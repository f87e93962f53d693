//! The commands of FTMB beside the top call: their words and statuses, `make`, `play` and `check`, the inputs of `run`,
//! `trace`, `picture`, `live`, `drill`, `chain`, `hand` and `resume`, and the laws.
#![tactic(auto)]

mod chain_inputs;
mod chain_words;
mod checking;
mod command;
mod drill_words;
mod first_inputs;
mod hand_words;
mod inputs;
mod laws;
mod live_inputs;
mod live_words;
mod make_words;
mod making;
mod picture_words;
mod playing;
mod resume_inputs;
mod resume_words;
mod run_words;
mod schedule_inputs;
mod schedule_words;
mod status;
mod text;
mod trace_words;

pub use chain_inputs::{Boxes, ChainInputs, ChainSource, read_chain_inputs};
pub use chain_words::{ChainWords, read_chain_words};
pub use checking::check_released;
pub use command::{Command, read_command};
pub use drill_words::{DrillWords, read_drill_words};
pub use first_inputs::{FirstInputs, read_first_inputs};
pub use hand_words::{HandWords, read_hand_words};
pub use inputs::{Inputs, read_inputs};
pub use laws::{
    inputs_are_of_bytes, one_verdict, pcapng_captures_are_savefiles,
    runs_on_the_same_bytes_leave_the_same, what_refused_inputs_say, what_run_leaves_is_accepted,
};
pub use live_inputs::{LiveInputs, read_live_inputs};
pub use live_words::{LiveWords, read_live_words};
pub use make_words::{MakeWords, read_make_words};
pub use making::make_capture;
pub use picture_words::{PictureWords, read_picture_words};
pub use playing::play_capture;
pub use resume_inputs::{ResumeSource, read_resume_source, read_script};
pub use resume_words::{ResumeWords, read_resume_words};
pub use run_words::{RunWords, read_run_words};
pub use schedule_inputs::{CheckInputs, ScheduleInputs, read_check_inputs, read_schedule_inputs};
pub use schedule_words::{CheckWords, PlayWords, ScheduleFiles, read_check_words, read_play_words};
pub use status::{InputFault, Status, run_outcome};
pub use text::StatusText;
pub use trace_words::{TraceWords, read_trace_words};
