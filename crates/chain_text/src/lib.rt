//! Scripts of two systems in a chain, as texts: on each line the number of a system, 1 or 2, and then an event as in a
//! script.
#![tactic(auto)]

mod laws;
mod reading;
mod rest;

pub use chain_world::ChainEvent;
pub use laws::a_text_is_one_chain_script_or_has_a_fault;
pub use reading::{ChainEvents, ChainScripts, read_chain};
