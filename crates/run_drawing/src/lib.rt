//! The picture of a run, from what was noted behind its events: a lane for each thread and for what arrives at the
//! output logger, a mark for each move and each released output, crashes and epochs.
#![tactic(auto)]

mod bars;
mod events;
mod ground;
mod keys;
mod laws;
mod legend;
mod marks;
mod moves;
mod note;
mod overview;
mod picture;
mod places;
mod samples;
mod scales;
mod signs;
mod slices;
mod time_chart;
mod time_curves;
mod time_ground;

pub use laws::{
    a_chart_by_time_goes_right, a_chart_by_time_has_all_counts, an_overview_is_1300_wide,
    every_move_has_one_mark, every_released_output_has_one_full_mark,
    no_count_changes_before_its_event, no_release_stands_left_of_its_send, slices_have_all_moves,
};
pub use note::{Cell, Movers, Note};
pub use picture::put_picture;
