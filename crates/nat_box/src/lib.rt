//! The box `nat`, which gives inside endpoints ports of one outside address (RFC 3022).
#![tactic(auto)]

mod laws;
mod nat;
mod place;
mod program;
mod seeing;
mod settings;
mod statics;
mod touching;
mod translating;
mod value;

pub use laws::{
    emissions_are_translations, entries_stand_for_one_endpoint, ports_stand_in_one_place,
};
pub use nat::NatBox;
pub use place::{Class, Goes, Noted, Place, REASON_REGISTER};
pub use seeing::Seen;
pub use settings::{NatSettings, StaticPort, no_statics};
pub use value::NatValue;
