use thiserror::Error;

/// The most bytes of a file.
pub const MOST_FILE_BYTES: u64 = 67_108_864;

/// The most packets of a capture.
pub const MOST_PACKETS: u32 = 65_536;

/// The most bytes that are captured of a packet.
pub const MOST_CAPTURED: u32 = 262_144;

/// The most events of a script, and the most counted lines of a schedule or a plan.
pub const MOST_EVENTS: u32 = 4_000_000;

/// The most moves that the masters of a run make, replays included.
pub const MOST_MOVES: u32 = 2_000_000;

/// The most bytes that the masters of a run send out.
pub const MOST_OUTPUT_BYTES: u32 = 268_435_456;

/// A bound on what a run may take or make.
#[derive(Clone, Copy, Debug, PartialEq, Eq, Error)]
pub enum Limit {
    /// The bytes of a file: `MOST_FILE_BYTES`.
    #[error("file")]
    File,
    /// The packets of a capture: `MOST_PACKETS`.
    #[error("packets")]
    Packets,
    /// The events of a script, and the counted lines of a schedule or a plan: `MOST_EVENTS`.
    #[error("events")]
    Events,
    /// The moves that masters make in a run: `MOST_MOVES`.
    #[error("moves")]
    Moves,
    /// The bytes that masters send out in a run: `MOST_OUTPUT_BYTES`.
    #[error("output bytes")]
    OutputBytes,
}
