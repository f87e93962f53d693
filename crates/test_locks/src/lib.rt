//! Tests of numbered locks: rounds in which threads race over one box, and what they come to, also where they end in
//! the middle of a packet; the turns in which it is woven; and what a guide says that rounds follow; and lanes between
//! threads. They stand apart, so that what they test is proved once.
#![tactic(auto)]

#[cfg(test)]
mod examples;
#[cfg(test)]
mod following;
#[cfg(test)]
mod guides;
#[cfg(test)]
mod halfway;
#[cfg(test)]
mod inputs;
#[cfg(test)]
mod lanes;
#[cfg(test)]
mod outcomes;
#[cfg(test)]
mod races;
#[cfg(test)]
mod racing;
#[cfg(test)]
mod rounds;
#[cfg(test)]
mod steps;
#[cfg(test)]
mod turns;
#[cfg(test)]
mod weaves;
#[cfg(test)]
mod weaving;
