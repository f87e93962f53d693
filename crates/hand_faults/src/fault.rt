use plain_machine::PlayCause;
use plain_text::LineCause;
use thiserror::Error;

/// Why no system goes on from a text of a handover.
#[derive(Clone, Copy, Debug, PartialEq, Eq, Error)]
pub enum HandCause {
    /// The line leaves the grammar.
    #[error("{0}")]
    Line(LineCause),
    /// The text is one of another box file, or one of the two is sealed and the other is not.
    #[error("another box")]
    Box,
    /// The text is one of other packets.
    #[error("another capture")]
    Capture,
    /// The counts of the state can't be, or the row of an ended epoch is not the next one.
    #[error("bad count")]
    Count,
    /// The plain machine can't make the move on the inputs that were fed.
    #[error("{0}")]
    Move(PlayCause),
    /// The moves do not send out the released output, or it stands twice.
    #[error("bad released")]
    Released,
}

/// The first fault of a text of a handover: the number of its line, from 1, and why.
#[derive(Clone, Copy, Debug, PartialEq, Eq, Error)]
#[error("line {line}: {cause}")]
pub struct HandFault {
    /// The number of the line, from 1.
    pub line: u64,
    /// Why no system goes on from it.
    pub cause: HandCause,
}
