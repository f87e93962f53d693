//! Packet taps: objects that are shown whole packets of a capture, each in a window of its own.
//!
//! A deck seats them, shows them each packet in turn, and gives a tap back, so that it can be seated again between two
//! captures. A tap that fails is shown nothing more, and the others go on.
#![tactic(auto)]

mod boxed_tap;
mod command;
mod deck;
mod laws;
mod line_tap;
mod place;
mod printing;
mod showing;
mod tap;
mod words;

pub use command::{Watched, watch};
pub use deck::{Deck, Unseated};
pub use laws::{seating_again_goes_on, window_goes_on};
pub use line_tap::LineTap;
pub use place::{LostPacket, Place, Taken};
pub use printing::{Printed, PrintedTo, print_watched};
pub use tap::PacketTap;
pub use words::{WatchWords, read_watch_words};
