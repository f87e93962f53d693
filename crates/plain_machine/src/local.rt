/// Where a box program is with the packet in hand: all that it keeps of one packet from move to move.
#[derive(Clone, Copy, Debug, PartialEq, Eq)]
pub struct Local {
    /// The place in the program, of which each program says what it means.
    pub at: u32,
    /// The numbers that it noted, of which each program says what they mean; those that it does not use are 0.
    pub regs: [u64; 12],
}

/// What a box program does next with the packet in hand.
#[derive(Clone, Copy, Debug, PartialEq, Eq)]
pub enum Move {
    /// Touches one whole shared variable: it may change it.
    Access(u32),
    /// Reads one whole shared variable and leaves it as it is.
    Read(u32),
    /// Is told the time, in microseconds.
    Clock,
    /// Is told a random word.
    Draw,
    /// Sends the packet out.
    Emit,
    /// Is done with the packet.
    End,
}
