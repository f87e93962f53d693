//! Tests of taps: two on a mirrored file, of which one fails; a file whose writing fails; taps that write to files, and
//! taps of several types in boxes. It has no function that another crate may call.
#![tactic(auto)]

#[cfg(test)]
mod files;
#[cfg(test)]
mod taps;
