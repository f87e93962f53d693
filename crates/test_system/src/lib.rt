//! Tests of scripts and plans: what is read of them, and what the recovering system does by scripts of a box that
//! reads, which no box file names, so that no stored session can have them. They stand apart, so that the system is
//! proved once.
#![tactic(auto)]

#[cfg(test)]
mod plans;
#[cfg(test)]
mod reads;
#[cfg(test)]
mod replay;
#[cfg(test)]
mod scripts;
