//! Tests of the commands over the world in memory, of what no stored session of the program can do: reads and writes
//! that fail, files at the limits of their size, a crash at each event of a race, large runs from a number, runs that
//! are too large for a picture or a trace, taps that fail, and threads that race and wait for one another. They stand
//! apart from `job_top`, so that it is proved once and not again with its tests.
#![tactic(auto)]

#[cfg(test)]
mod commands;
#[cfg(test)]
mod crashed_races;
#[cfg(test)]
mod endings;
#[cfg(test)]
mod faults;
#[cfg(test)]
mod gates;
#[cfg(test)]
mod large;
#[cfg(test)]
mod limits;
#[cfg(test)]
mod pictures;
#[cfg(test)]
mod plans;
#[cfg(test)]
mod taps;
