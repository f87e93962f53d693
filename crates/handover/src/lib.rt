//! The text of a handover: a whole stored state of a system, which another process goes on from. A state is written as
//! lines, and read back from them, line by line and in their order.
#![tactic(auto)]

mod fault;
mod form;
mod image;
mod laws;
mod line;
mod reading;
mod stage;
mod values;
mod written;

pub use fault::ImageError;
pub use image::{Ended, EndedList, Image};
pub use laws::{a_text_is_one_image_or_has_a_fault, written_images_are_read};
pub use reading::read_image;
pub use written::put_image;
