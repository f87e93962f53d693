//! What became of each packet of a run, as a table with a line for each: which thread it went to,
//! whether its output was released, by which event and in which epoch, and if not, why not.

mod filling;
mod following;
mod laws;
mod performing;
mod places;
mod rows;
mod running;
mod steering;
mod table;
mod tracing;

pub use laws::{each_packet_has_one_row, each_release_has_its_event};
pub use rows::{Became, Departure, Fate, Row};
pub use tracing::run_trace;
