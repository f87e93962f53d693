//! Tests of rounds: threads race in the recovering system, and afterwards it stands where their steps lead, one after
//! another. They stand apart, so that what they test is proved once.
#![tactic(auto)]

#[cfg(test)]
mod agreeing;
#[cfg(test)]
mod asked;
#[cfg(test)]
mod boxes;
#[cfg(test)]
mod courses;
#[cfg(test)]
mod draws;
#[cfg(test)]
mod packets;
#[cfg(test)]
mod racing;
#[cfg(test)]
mod record;
