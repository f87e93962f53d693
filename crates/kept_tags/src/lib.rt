//! The laws of tags that are looked through: which bytes are a tag, and that each goes out as it came in, whatever the
//! box. Each is proved, and does nothing: a caller has it by the call.
#![tactic(auto)]

mod laws;

pub use laws::{tags_alone_are_looked_through, tags_go_out_as_they_came};
