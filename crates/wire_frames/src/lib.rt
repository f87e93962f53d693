//! Log entries and outputs as bytes, and back.
//!
//! A frame has its version in its second byte and its own length behind it. Frames are written in version 2, and read
//! in versions 1 and 2. A stamp of version 1 has one component for each thread; one of version 2 has those that are not
//! 0, and says by a mask whose they are. All numbers have their high byte first.
#![tactic(auto)]

mod bytes;
mod frame;
mod laws;
mod layout;
mod reading;
mod stamp;
mod values;
mod version;
mod writing;

pub use access_log::{Output, StampedEntry, What, copy_output};
pub use frame::{Frame, FrameEntry, FrameError, FrameFault, FrameOutput};
pub use laws::{
    no_frame_begins_another, one_frame, the_mask_names_what_is_not_0,
    the_tests_are_those_of_frames, what_is_written_is_a_frame,
};
pub use reading::take_frame;
pub use writing::{entry_length, output_length, put_entry, put_output};
