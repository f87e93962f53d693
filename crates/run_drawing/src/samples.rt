use plain_text::Sequence;

/// What the overview of a long run tells of one of its events, or of its packets.
#[derive(Clone, Copy)]
pub struct Sample {
    /// The place of the event, from 0; or the time since the first packet, in microseconds.
    pub index: u64,
    /// How many packets came in.
    pub fed: u64,
    /// How many outputs were released.
    pub released: u64,
    /// How many outputs wait.
    pub waiting: u64,
    pub epoch: u32,
}

/// What a curve counts.
#[derive(Clone, Copy)]
pub enum Count {
    /// The packets that came in.
    Fed,
    /// The outputs that were released.
    Left,
    /// The outputs that wait.
    Held,
}

/// The unit of the times below an overview.
#[derive(Clone, Copy)]
pub enum TimeUnit {
    Second,
    Millisecond,
    Microsecond,
}

/// What a slice of the events has of the moves of a thread.
#[derive(Clone, Copy)]
pub struct Slice {
    /// The place of its first event, from 0.
    pub first: u64,
    /// How many events it has.
    pub events: u64,
    /// How many moves the thread made in it.
    pub moves: u64,
}

/// Slices, in order.
pub type Slices = Sequence<Slice>;
