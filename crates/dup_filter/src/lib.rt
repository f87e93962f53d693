//! The numbers that were marked, thread by thread: which outputs were released, and so are not to be released again.
#![tactic(auto)]

mod numbers;
mod released;

pub use released::Released;
