//! The commands over a schedule: `play` writes the packets that it sends out, and `check` tells whether it is legal and
//! whether each packet of a released capture has an emission of its own. Both play it by the plain machine, on a whole
//! capture.
#![tactic(auto)]

mod capture;
mod checking;
mod error;
mod playing;
mod run;
mod texts;

pub use capture::write_capture;
pub use checking::check_schedule;
pub use error::ScheduleError;
pub use playing::play_schedule;
pub use run::ScheduleRun;
pub use texts::put_count;
