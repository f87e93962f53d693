use entry_order::What;
use master_core::Stepped;
use plain_text::Bytes;
use std::boxed::Box;

/// In which form a move is kept.
#[derive(Drop)]
pub enum Form {
    /// Its thread took the input of this number.
    Took(u64),
    /// It made an entry, of which this is the frame.
    Logged {
        thread: u32,
        number: u64,
        what: What,
        frame: Bytes,
    },
    /// It sent out a packet of this many bytes, in an output of which this is the frame.
    Sent {
        thread: u32,
        number: u64,
        captured: u64,
        frame: Bytes,
    },
    /// Its thread ended the input of this number.
    Ended(u64),
    /// All that its call showed.
    Whole(Box<Stepped>),
}
