//! Tests of boxes, of what no stored session of the program can do: the counting box and the one that also reads, where
//! they count further than a capture goes; what a box file sets; a race of two threads on one endpoint of the box
//! `nat`, in every order of their moves; and how long its mappings are kept, and in which order. Worked examples of the
//! boxes are stored sessions of the program.
#![tactic(auto)]

#[cfg(test)]
mod files;
#[cfg(test)]
mod frames;
#[cfg(test)]
mod interleavings;
#[cfg(test)]
mod programs;
#[cfg(test)]
mod running;
#[cfg(test)]
mod tables;
