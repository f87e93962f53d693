//! What the command `run` writes: the released capture and the schedule are created; then come, event by event, the
//! records of what it released and its line of the report; and then the schedule and the last line.
#![tactic(auto)]

mod closing;
mod error;
mod laws;
mod opening;
mod replying;

pub use closing::{put_done, write_closing};
pub use error::{RunError, stopped, written};
pub use laws::outputs_keep_step;
pub use opening::{OutputFiles, RunFiles, ScriptRun, open_outputs};
pub use replying::{write_outputs, write_reply, write_stopped};
