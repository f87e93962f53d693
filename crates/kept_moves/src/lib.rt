//! The moves of racing threads as they are kept until they are noted: what was logged or sent out stands as its frame.
#![tactic(auto)]

mod checks;
mod form;
mod kept;

pub use form::Form;
pub use kept::KeptMove;
