use plain_machine::Local;
use thread_clock::Stamp;

/// How much a thread did: the inputs that it took, the entries that it logged, the packets that it sent out.
#[derive(Clone, Copy, Debug, PartialEq, Eq)]
pub struct Counts {
    /// How many inputs it took.
    pub taken: u64,
    /// How many moves it logged, which is the number of its last entry.
    pub entries: u64,
    /// How many packets it sent out, which is the number of its last output.
    pub outputs: u64,
}

/// What a master keeps of a shared variable.
#[derive(Debug, Drop)]
pub struct VarPart<V> {
    /// Its value after its last touch, or the first value of the program.
    pub value: V,
    /// How often it was touched; its last touch has this place, from 1. Reads do not count.
    pub places: u64,
    /// The stamp of its last touch, or zero.
    pub stamp: Stamp,
    /// The join of the stamps of its reads after its last touch, or zero.
    pub readers: Stamp,
}

/// What a master keeps of a thread.
#[derive(Clone, Copy, Debug, PartialEq, Eq)]
pub struct ThreadPart {
    /// How much it did since the run began.
    pub counts: Counts,
    /// Where it is with its packet in hand, which is the last input that it took.
    pub hand: Option<Local>,
    /// The stamp of its last entry, or zero.
    pub stamp: Stamp,
}
