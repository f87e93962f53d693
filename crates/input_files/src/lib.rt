//! The input files of a command, each read and judged by itself.
#![tactic(auto)]

mod box_file;
mod capture_file;
mod chain_file;
mod errors;
mod image_file;
mod laws;
mod lines_file;
mod plan_file;
mod schedule_file;
mod script_file;
mod texts;

pub use box_file::read_box_file;
pub use capture_file::{Capture, read_capture_file};
pub use chain_file::read_chain_file;
pub use errors::InputError;
pub use image_file::{ImageFile, read_image_file};
pub use laws::each_file_has_one_answer;
pub use plan_file::read_plan_file;
pub use schedule_file::read_schedule_file;
pub use script_file::read_script_file;
