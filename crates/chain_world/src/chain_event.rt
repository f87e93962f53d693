use recovery_world::Event;

/// An event of a script of two systems in a chain.
#[derive(Clone, Copy, Debug, PartialEq, Eq)]
pub struct ChainEvent {
    /// Which system it is for: 1 is the first, 2 the second.
    pub which: u32,
    pub event: Event,
}
