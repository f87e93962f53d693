//! Tests of the crates on which all others stand, of what no stored session of the program can do: reads and writes that
//! fail, the limit of packets, large sequences, files of the system, and the checksums that were published. It has no
//! function that another crate may call.
#![tactic(auto)]

#[cfg(test)]
mod blocks;
#[cfg(test)]
mod checksums;
#[cfg(test)]
mod generated;
#[cfg(test)]
mod inputs;
#[cfg(test)]
mod parts;
#[cfg(test)]
mod real_worlds;
#[cfg(test)]
mod savefiles;
#[cfg(test)]
mod texts;
#[cfg(test)]
mod worlds;
