//! Any world, with a record of its calls that only contracts read.
//!
//! Of a world whose bytes no contract can name, as that of the real files, something is known all
//! the same: whatever bytes stood under the names at the beginning, if the answers so far are those
//! of files which held these, then its bytes are those that the calls make of them. The record takes
//! no memory, and when the program runs it costs an empty call for each call.
//!
//! To be trusted, apart from the world below: that the record is that of the calls made, by two proofs
//! by hand in `record`, which no other code can change.
#![tactic(auto)]

mod laws;
mod record;
mod tapping;
mod told;
mod told_tap;

pub use laws::{opened_once_agree, some_beginning};
pub use record::Call;
pub use told::Told;
pub use told_tap::{Refused, ToldTap};
