//! A round in which threads race: receipts of what each thread did, and the laws by which they weave into one legal
//! list of moves. It knows no words, locks or threads of a machine.
#![tactic(auto)]

mod laws;
mod turns;

pub use laws::{
    parts_make_moves, places_rise, receipts_weave, rounds_close, rounds_grow, rounds_open,
    turns_weave, woven_rounds_are_lines,
};
pub use turns::{Marks, weave};
