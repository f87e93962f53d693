//! The seal of a handover: a line in front of its text that names the box file and the packets that were fed, by their
//! digests.
#![tactic(auto)]

mod digest;
mod laws;
mod seal;
mod seals;

pub use digest::packets_digest;
pub use laws::{packets_are_told_apart, sealed_texts_open, texts_are_of_one_seal};
pub use seal::{Seal, SealFault, put_sealed, seal_fault, unsealed};
pub use seals::{Seals, seal_after};
