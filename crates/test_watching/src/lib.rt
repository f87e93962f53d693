//! Tests of packet taps: a tap in its window, one that is taken out and seated again, and one that fails while
//! another goes on. It has no function that another crate may call.
#![tactic(auto)]

#[cfg(test)]
mod recorder;
#[cfg(test)]
mod windows;
