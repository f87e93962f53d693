//! The worlds that an image of a system stands for, when a system may be handed over, what makes an image faulty, and
//! the laws of these.
#![tactic(auto)]

mod fault;
mod laws;
mod unready;

pub use fault::ResumeError;
pub use laws::{
    handing_over_is_running, images_have_one_fault, images_of_worlds_have_no_fault,
    images_stand_for_worlds, one_image, reached_worlds_are_counted, ready_worlds_come_to_rest,
    systems_have_one_readiness,
};
pub use unready::Unready;
