//! Tests of logs and of what stands on them, of what no stored session of the program can do: stamps, frames as bytes,
//! snapshots of values that can't be copied, and what may be handed to another thread. They stand apart, so that what
//! they test is proved once.
#![tactic(auto)]

#[cfg(test)]
mod frames;
#[cfg(test)]
mod pinned;
#[cfg(test)]
mod snapshots;
#[cfg(test)]
mod stamps;
#[cfg(test)]
mod threads;
