//! A player of the plain machine: one move at a time, or a whole schedule, exactly as the definition has it; and
//! schedules as texts.
#![tactic(auto)]

mod hand;
mod laws;
mod player;
mod schedule;
mod seat;
mod whole;

pub use hand::{HandMove, MoveError};
pub use laws::{a_text_is_one_schedule_or_has_a_fault, written_schedules_are_read};
pub use player::Player;
pub use schedule::{put_move, put_schedule, read_schedule};
pub use seat::Seat;
pub use whole::{Emissions, PlayError, Played, play};
