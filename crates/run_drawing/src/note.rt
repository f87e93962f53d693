use made_moves::{Made, MadeMoves};
use plain_text::{Bytes, Sequence};
use recovery_world::{Event, Outcome};

/// The thread of each move, in order.
pub type Movers = Sequence<u32>;

/// What is noted behind an event of a run.
#[derive(Drop)]
pub struct Note {
    pub event: Event,
    /// What it came to.
    pub outcome: Outcome,
    /// Its line of the report.
    pub line: Bytes,
    /// How many of the moves that the master had made before, the present master has made too.
    pub kept: u64,
    /// What the moves did that it made behind these; nothing where it has made too many for a picture of each.
    pub made: MadeMoves,
    /// Who made the moves behind these.
    pub movers: Movers,
    /// How many moves it has made in all.
    pub moves: u64,
    /// How many packets of the capture came in, in all.
    pub fed: u64,
    /// How many outputs were released in all.
    pub released: u64,
    /// How many outputs arrived and wait for a log entry.
    pub waiting: u64,
    /// Whether the master is up.
    pub up: bool,
    pub epoch: u32,
}

/// A move in its column of the picture.
#[derive(Clone, Copy)]
pub struct Cell {
    pub made: Made,
    pub column: u64,
}
