//! The commands `hand` and `resume`: a run whose system is handed over behind its last event, as the text of an image;
//! and a run that goes on from such an image.
#![tactic(auto)]

mod error;
mod hand;
mod handing;
mod laws;
mod resume;

pub use error::{GoOnError, HandError};
pub use hand::{HandFiles, run_hand};
pub use laws::hand_and_resume_are_one_run;
pub use resume::run_resume;
pub use run_command::{run_from, run_script};
