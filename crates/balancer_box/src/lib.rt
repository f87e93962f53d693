//! The box `balancer`, which spreads the clients of one virtual address and port over backends.
#![tactic(auto)]

mod balancer;
mod connections;
mod following;
mod laws;
mod loads;
mod place;
mod program;
mod sending;
mod settings;
mod touching;
mod value;

pub use balancer::BalancerBox;
pub use connections::Connections;
pub use laws::{
    chosen_backends_have_least_load, connections_keep_their_backends, emissions_follow_connections,
    loads_are_charges,
};
pub use loads::Loads;
pub use place::{Class, Goes, Noted, Place, REASON_REGISTER, Tells};
pub use settings::{Backend, BalancerSettings, no_backends};
pub use value::BalancerValue;
