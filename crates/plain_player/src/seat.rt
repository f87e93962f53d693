use plain_machine::Local;

/// One thread of a player.
#[derive(Clone, Copy, Debug, PartialEq, Eq)]
pub struct Seat {
    /// How many inputs it took.
    pub taken: u64,
    /// How many packets it sent out.
    pub outputs: u64,
    /// Where it is with the packet in hand.
    pub hand: Option<Local>,
}
