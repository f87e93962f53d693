//! The events of a script are performed, it is noted what each of them did, and the picture of the
//! run is drawn from the notes and written.

mod inputs;
mod laws;
mod noting;
mod performing;
mod picturing;
mod running;
mod times;

pub use laws::all_moves_are_noted;
pub use picturing::run_picture;
