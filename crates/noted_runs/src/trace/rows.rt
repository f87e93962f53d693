/// What a run did with an input.
#[derive(Clone, Copy)]
pub enum Became {
    /// No thread took it.
    Untaken,
    /// A thread took it, and has not ended it.
    InHand,
    /// It sent out this output of its thread, the first one for this input.
    Sent(u64),
    /// It was ended, and nothing was sent out for it. This number stood in the register of reasons then; 0 where there
    /// is no such register.
    Ended(u64),
}

/// With which event an output was released, by its number in the script, and in which epoch.
#[derive(Clone, Copy)]
pub struct Departure {
    /// From 1.
    pub event: u64,
    /// From 1.
    pub epoch: u32,
}

/// What became of a packet.
#[derive(Clone, Copy)]
pub enum Fate {
    /// Its output was released, as the one with this number, from 1.
    Released(u64),
    /// Its output was sent out. This log entry is the first one that is missing for it.
    Waiting { thread: u32, number: u64 },
    /// Its output was sent out, and no log entry is missing for it; but it has not arrived.
    UnderWay,
    /// It was dropped, for the reason with this digit.
    Dropped(u8),
    /// It was ended, and nothing was sent out for it.
    NoOutput,
    /// A thread took it. The master has neither sent its output nor ended it.
    InHand,
    /// No thread took it.
    NotTaken,
}

/// A line of the table.
#[derive(Clone, Copy)]
pub struct Row {
    /// The number of the packet in the capture, from 1.
    pub packet: u64,
    /// The thread that it went to.
    pub thread: u32,
    /// Its number among the inputs of the thread, from 1.
    pub input: u64,
    /// How its output left, if it did.
    pub left: Option<Departure>,
    pub fate: Fate,
}
